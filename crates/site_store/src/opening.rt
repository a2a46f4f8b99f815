// Opening a site: all of it is read, and what is kept must be its layout.
ghost use Rattle.std.specs.Prelude.{◌↔◌, ◌≡◌, ◌<◌, ◌≤◌, true, false, [], length, IfOk, IfErr, IfSome, OnOk, IsErrAnd, IsTrue};
ghost use Rattle.page_store.specs.Sizes.{longest_key, longest_value};
ghost use Rattle.host_types.specs.Site.{Site};
ghost use Rattle.page_store.specs.Batch.{pair_after};
ghost use Rattle.page_store.specs.Work.{ReadsPages, pages_tried};
ghost use Rattle.page_store.specs.declared.fault.KeeperFault.TheVariants.{Failed};
ghost use Rattle.site_store.specs.Represented.{RepresentedBy, PairsShowSite};
ghost use Rattle.site_store.specs.StoreReads.{StoreReadsOnly, NoneFailed, IsSiteReadFault, IsReadOrMemory};
ghost use Rattle.site_store.specs.Reads.{AlwaysReads, ReadsKnown};
ghost use Rattle.site_store.specs.Opening.{IsSiteOpenFault, IsReadWhole, IsSitePairsFault, ValuesFit, KeysFit, ReadsAll, OpensSite, last_key, site_under, with_named, with_all_named, HasAddressOf};
ghost use Rattle.site_store.specs.Seen.{keeper_of, seen_site};
ghost use Rattle.site_store.specs.declared.fault.SiteOpenFault.TheVariants.{Keeper as StoreFault};

use crate::items::item_in;
use crate::read_pairs::ReadPairs;
use crate::value_lookup::ValueLookup;
use crate::whole_layout::has_layout;
use crate::{DiskSite, SiteOpenFault};
use host_types::Selector;
use mem_site::MemSite;
use page_store::{Banner, Keeper, KeeperFault, LONGEST_KEY, LONGEST_VALUE, Pair};
use std::alloc::Global;

/// The version of images that sites are opened from.
pub const VERSION: u16 = 2;

/// A walk has not found as many pairs as the keeper counts. The count stands in a root slot, which are the first pages.
const NOT_COUNTED: SiteOpenFault = SiteOpenFault::Keeper(KeeperFault::Damaged { page: 0 });

/// Whether these are as many pairs as a keeper counts.
fn are_all<K: Keeper>(keeper: &K, pairs: &[Pair]) -> bool
    ensures { IsTrue result ↔ (length pairs.now ≡ (K.store_state keeper.now).keys) }
{
    pairs.len() as u64 == keeper.figures().keys
}

/// The key of the last of these pairs, or the empty one, which is below all.
fn last_key(pairs: &[Pair]) -> &[u8]
    ensures { result.now ≡ last_key pairs.now }
{
    match pairs.last() {
        Some(last) => last.key(),
        None => &[],
    }
}

/// The pair behind these, the first ones of the keeper.
fn pair_behind<K: Keeper>(
    alloc: Global,
    keeper: &mut K,
    pairs: &[Pair],
    key: &mut [u8; LONGEST_KEY],
    value: &mut [u8; LONGEST_VALUE],
) -> Result<Option<Pair>, SiteOpenFault>
    ensures pair { AlwaysReads K.store_state K.may_need K.crash_states keeper.old keeper.new result IsReadOrMemory (λ h found. found ≡ pair_after h.pairs (last_key pairs.now)) }
    ensures fit { IfOk result (λ found. IfSome found (λ p. length p.1 ≤ longest_value)) }
    ensures keys { IfOk result (λ found. IfSome found (λ p. length p.0 ≤ longest_key)) }
    ensures work { ReadsPages (pages_tried (K.store_state keeper.old).height) (K.store_state keeper.old).made (K.store_state keeper.new).made }
{
    match keeper.next(last_key(pairs), key, value) {
        Ok(Some((size, length))) => {
            let pair = Pair::from_slices(alloc, &key[..size], &value[..length])?;
            Ok(Some(pair))
        }
        Ok(None) => Ok(None),
        Err(fault) => Err(SiteOpenFault::Keeper(fault)),
    }
}

/// All pairs of a keeper. Where they aren't as many as it counts it is `Damaged`, which can come of a lying device alone.
pub(crate) fn pairs_of<K: Keeper>(alloc: Global, keeper: &mut K) -> Result<Vec<Pair>, SiteOpenFault>
    ensures pairs { AlwaysReads K.store_state K.may_need K.crash_states keeper.old keeper.new result IsReadOrMemory (λ h all. all.items ≡ h.pairs) }
    ensures fit { IfOk result (λ all. ValuesFit all.items) }
    ensures keys { IfOk result (λ all. KeysFit all.items) }
    ensures counted { IfOk result (λ all. length all.items ≡ (K.store_state keeper.old).keys) }
    ensures work { OnOk result (ReadsAll (K.store_state keeper.old) (K.store_state keeper.new)) }
{
    let mut pairs = Vec::new(alloc);
    let (mut key, mut value) = ([0; LONGEST_KEY], [0; LONGEST_VALUE]);
    for _ in 0..u64::MAX {
        match pair_behind(alloc, keeper, &pairs, &mut key, &mut value) {
            Ok(Some(pair)) => pairs.push(pair)?,
            Ok(None) if are_all(keeper, &pairs) => return Ok(pairs),
            Ok(None) => return Err(NOT_COUNTED),
            Err(fault) => return Err(fault),
        }
    }
    Err(SiteOpenFault::Memory)
}

/// Puts the item that a key names into a site, where it names one.
fn put_named<V: ValueLookup>(
    alloc: Global,
    from: &mut V,
    site: &mut MemSite,
    key: &[u8],
) -> Result<(), SiteOpenFault>
    ensures named { ReadsKnown V.store_state V.may_need V.crash_states from.old from.new result RepresentedBy (λ s _. site.new ≡ with_named s site.old key.now) }
    ensures host { OnOk result (site.new.host ≡ site.old.host) }
    ensures port { OnOk result (site.new.port ≡ site.old.port) }
    ensures admin { OnOk result (site.new.admin ≡ site.old.admin) }
{
    let [b'I', name @ ..] = key else {
        return Ok(());
    };
    let Ok(selector) = Selector::new(name) else {
        return Ok(());
    };
    match item_in(alloc, from, &selector) {
        Ok(Some(item)) => match site.insert(selector, item) {
            Ok(()) => Ok(()),
            Err(_) => Err(SiteOpenFault::Memory),
        },
        Ok(None) => Ok(()),
        Err(fault) => Err(fault),
    }
}

/// The site whose items the keys of these pairs name.
fn site_of(alloc: Global, read: &mut ReadPairs<'_>) -> Result<MemSite, SiteOpenFault>
    ensures named { IfOk result (λ m. (s : Site) → PairsShowSite read.old.0 read.old.1 s → m ≡ with_all_named s (site_under read.old.1) read.old.0) }
    ensures address { IfOk result (λ m. HasAddressOf m read.old.1) }
    ensures fault { IfErr result (IsSitePairsFault read.old.0 read.old.1) }
    ensures same { read.new ≡ read.old }
{
    let banner = read.banner();
    let mut site = MemSite::empty(
        alloc,
        banner.host.clone()?,
        banner.port,
        banner.admin.clone()?,
    );
    let pairs = read.pairs();
    for pair in pairs {
        match put_named(alloc, read, &mut site, pair.key()) {
            Ok(()) => {}
            Err(fault) => return Err(fault),
        }
    }
    Ok(site)
}

/// It ends well where these pairs are the layout of a valid site under this banner.
pub(crate) fn check_pairs(
    alloc: Global,
    banner: &Banner,
    pairs: &[Pair],
) -> Result<(), SiteOpenFault>
    requires fit { ValuesFit pairs.now }
    requires version { banner.now.version ≡ 2 }
    ensures site { OnOk result ((s : Site) × PairsShowSite pairs.now banner.now s) }
    ensures fault { IfErr result (IsSitePairsFault pairs.now banner.now) }
    ensures port { OnOk result (0 < banner.now.port) }
{
    let Some(mut read) = ReadPairs::new(alloc, banner, pairs)? else {
        return Err(SiteOpenFault::BadRecord);
    };
    let site = site_of(alloc, &mut read)?;
    if has_layout(alloc, &site, &mut read)? {
        Ok(())
    } else {
        Err(SiteOpenFault::BadRecord)
    }
}

/// Reads all that is kept; it ends well where that is the layout of a valid site.
fn check<K: Keeper>(alloc: Global, keeper: &mut K) -> Result<(), SiteOpenFault>
    requires version { (K.store_state keeper.old).banner.version ≡ 2 }
    ensures kept { AlwaysReads K.store_state K.may_need K.crash_states keeper.old keeper.new result IsSiteReadFault (λ h _. (s : Site) × RepresentedBy h s) }
    ensures whole { OnOk result (IsReadWhole (K.store_state keeper.old)) }
    ensures work { OnOk result (ReadsAll (K.store_state keeper.old) (K.store_state keeper.new)) }
    ensures port { OnOk result (0 < (K.store_state keeper.old).banner.port) }
{
    let pairs = pairs_of(alloc, keeper)?;
    check_pairs(alloc, keeper.banner(), &pairs)
}

impl<K: Keeper> DiskSite<K> {
    /// Opens the site whose layout a keeper holds, of which no pin is out, and reads all of it. A refusal hands the keeper back; nothing is written.
    ///
    /// A keeper that isn't usable is `Failed`, and gets no other answer. `Version` where what is kept is of another version than 2, which is not read. `BadRecord` where what is kept is no valid site's layout, else the keeper's fault; `Damaged` of page 0 where as many pairs as it counts are not found. `Memory` may stand in place of `BadRecord` and of success.
    pub fn open(alloc: Global, keeper: K) -> Result<DiskSite<K>, (SiteOpenFault, K)>
        requires unpinned { (K.store_state keeper).pins ≡ [] }
        ensures site { IsTrue (K.store_state keeper).honest → IfOk result (λ d. RepresentedBy (K.store_state keeper) (seen_site d)) }
        // On every device: what was read is a valid site's layout, of as many pairs as the keeper counts.
        ensures whole { OnOk result (IsReadWhole (K.store_state keeper)) }
        ensures opened { IfOk result (λ d. OpensSite K.store_state K.may_need K.crash_states keeper (keeper_of d)) }
        ensures fault { IfErr result (λ e. IsSiteOpenFault (K.store_state keeper) (K.store_state e.1) e.0) }
        ensures handed_back { IfErr result (λ e. StoreReadsOnly K.store_state K.may_need K.crash_states keeper e.1) }
        ensures closed { (K.store_state keeper).usable ≡ false → IsErrAnd result (λ e. e.0 ≡ StoreFault Failed) }
    {
        if !keeper.is_usable() {
            return Err((SiteOpenFault::Keeper(KeeperFault::Failed), keeper));
        }
        if keeper.banner().version != VERSION {
            return Err((SiteOpenFault::Keeper(KeeperFault::Version), keeper));
        }
        let mut keeper = keeper;
        match check(alloc, &mut keeper) {
            Ok(()) => Ok(DiskSite { alloc, keeper }),
            Err(fault) => Err((fault, keeper)),
        }
    }
}
