// The items of a site as a file of changes.
ghost use Rattle.std.specs.Prelude.{◌≡◌, ◌++◌, [], ℕ, List, IfOk, OnOk, IsTrue, IsUtf8, Ok, Some, option_map, string_bytes};
ghost use Rattle.change_file.specs.Changes as file;
ghost use Rattle.change_writer.specs.Comments.{comments};
ghost use Rattle.host_types.specs.Card.{card_at};
ghost use Rattle.host_types.specs.Site.{item_at};
ghost use Rattle.host_types.specs.declared.item.Item.{Item as SiteItem};
ghost use Rattle.image_exports.specs.Exports.{AddsTo, IsExportOf, IsToldNext};
ghost use Rattle.image_exports.specs.Looks.{Looks};
ghost use Rattle.image_exports.specs.Told.{IsToldIn};

use crate::naming::{name_item, reason};
use crate::whole::whole_item;
use change_writer::{ChangeWriter, WriteFault};
use host_types::{Card, Change, Selector, SiteFault, SiteKeeper};
use page_store::PinKeeper;
use site_store::DiskSite;
use std::alloc::{AllocError, Global};

/// A file of changes that is being made, and the comments in front of it.
#[derive(Drop)]
struct Export {
    file: ChangeWriter,
    comments: String,
}

/// Tells an item: by the change that puts it, or else by a comment that names it.
fn tell_item<S: SiteKeeper>(
    alloc: Global,
    site: &mut S,
    out: &mut Export,
    selector: &Selector,
    card: Card,
) -> Result<(), SiteFault>
    requires unpinned { (S.site_state site.old).pins ≡ [] }
    requires stands { let h = S.site_state site.old in IsTrue h.honest → Some card ≡ card_at h.site selector.now }
    ensures told { let h = S.site_state site.old in IsTrue h.honest → (item : SiteItem) → item_at h.site selector.now ≡ Some item → OnOk result (AddsTo out.old out.new (IsToldIn (selector.now, item))) }
    ensures looks { Looks S.site_state S.crash_states site.old site.new result }
{
    let why = reason(selector, &card.body);
    if selector.is_reserved() {
        return name_item(alloc, &mut out.comments, selector, why);
    }
    let item = whole_item(alloc, site, selector, card)?;
    let change = Change::Put(selector.clone()?, item);
    match out.file.add(&change) {
        Ok(()) => Ok(()),
        Err(WriteFault::Unsaid) => name_item(alloc, &mut out.comments, selector, why),
        Err(WriteFault::Memory) => Err(SiteFault::Memory),
    }
}

/// Tells the first item above a selector, and answers its selector; with no selector, the first item of all.
fn tell_next<K: PinKeeper>(
    alloc: Global,
    site: &mut DiskSite<K>,
    out: &mut Export,
    after: Option<&Selector>,
) -> Result<Option<Selector>, SiteFault>
    requires unpinned { (⟦<DiskSite<K> as SiteKeeper>⟧.site_state site.old).pins ≡ [] }
    ensures next { let h = ⟦<DiskSite<K> as SiteKeeper>⟧.site_state site.old in IsTrue h.honest → IfOk result (IsToldNext h.site (option_map (λ selector. selector.now) after.entry) out.old out.new) }
    ensures looks { Looks ⟦<DiskSite<K> as SiteKeeper>⟧.site_state ⟦<DiskSite<K> as SiteKeeper>⟧.crash_states site.old site.new result }
{
    match site.next_card(after) {
        Ok(Some((selector, card))) => {
            tell_item(alloc, site, out, &selector, card)?;
            Ok(Some(selector))
        }
        Ok(None) => Ok(None),
        Err(fault) => Err(fault),
    }
}

/// The text of an export: its comments, and then its file.
fn text_of(export: Export) -> Result<Vec<u8>, AllocError>
    ensures utf8 { IfOk result (λ text. IsUtf8 text.items) }
    ensures begins { IfOk result (λ text. (rest : List ℕ) × (text.items ≡ string_bytes export.comments ++ rest)) }
    ensures reads { (names : List (List ℕ)) → string_bytes export.comments ≡ comments names → IfOk result (λ text. file.read text.items ≡ Some (Ok export.file)) }
{
    let Export { file, comments } = export;
    let file = file.text()?;
    let mut all = comments;
    all.push_str(&file)?;
    Ok(all.into_bytes())
}

/// The file of changes that put the items of a site.
pub fn export_site<K: PinKeeper>(
    alloc: Global,
    site: &mut DiskSite<K>,
) -> Result<Vec<u8>, SiteFault>
    requires unpinned { (⟦<DiskSite<K> as SiteKeeper>⟧.site_state site.old).pins ≡ [] }
    ensures export { let h = ⟦<DiskSite<K> as SiteKeeper>⟧.site_state site.old in IsTrue h.honest → IfOk result (λ text. IsExportOf h.site text.items) }
    ensures looks { Looks ⟦<DiskSite<K> as SiteKeeper>⟧.site_state ⟦<DiskSite<K> as SiteKeeper>⟧.crash_states site.old site.new result }
{
    let mut out = Export {
        file: ChangeWriter::new(alloc),
        comments: String::new(alloc),
    };
    let mut after = None;
    for _ in 0..u64::MAX {
        match tell_next(alloc, site, &mut out, after.as_ref()) {
            Ok(Some(next)) => after = Some(next),
            Ok(None) => return Ok(text_of(out)?),
            Err(fault) => return Err(fault),
        }
    }
    // No device that can be had holds so many items.
    Err(SiteFault::Memory)
}
