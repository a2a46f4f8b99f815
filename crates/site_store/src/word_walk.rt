// The items of a site that have a word, by the keys of the words: no item is read.
ghost use Rattle.std.specs.Prelude.{◌≡◌, ◌≤◌, true, All, IfOk, IfErr};
ghost use Rattle.std.specs.Prelude as list;
ghost use Rattle.std.specs.List.{list_all};
ghost use Rattle.host_types.specs.Site.{Site, item_at};
ghost use Rattle.host_types.specs.Words.{words_of, is_among};
ghost use Rattle.site_records.specs.Layout as kept;
ghost use Rattle.site_store.specs.Represented.{RepresentedBy};
ghost use Rattle.site_store.specs.StoreReads.{IsQuickFault};
ghost use Rattle.site_store.specs.Reads.{AlwaysReads, ReadsKnown, AlwaysReadsKnown};
ghost use Rattle.site_store.specs.Walking.{IsInvalid};
ghost use Rattle.site_store.specs.WordWalks as spec;
ghost use Rattle.site_store.specs.declared.fault.SiteOpenFault.TheVariants.{BadRecord};

use crate::SiteOpenFault;
use crate::value_lookup::ValueLookup;
use crate::word_keys::WordKeys;
use host_types::{Bytes, Selector};
use page_store::{Keeper, LONGEST_KEY, LONGEST_VALUE};
use site_records::{Key, LONGEST_WORD, word_key};

/// Whether a word is among those of the item at a selector: there is a key of both.
pub fn has_word<K: Keeper>(
    keeper: &mut K,
    word: &Bytes,
    selector: &Selector,
) -> Result<bool, SiteOpenFault>
    requires { list.length word.now ≤ LONGEST_WORD }
    ensures there { AlwaysReadsKnown K.store_state K.may_need K.crash_states keeper.old keeper.new result RepresentedBy (λ s there. there ≡ kept.has_word (item_at s selector.now) word.now) }
{
    let mut buffer = [0; LONGEST_VALUE];
    match keeper.look_up(&word_key(word.as_slice(), selector), &mut buffer) {
        Ok(Some(_)) => Ok(true),
        Ok(None) => Ok(false),
        Err(fault) => Err(fault),
    }
}

/// Whether an item that has a word has another one.
fn has_too<K: Keeper>(
    keeper: &mut K,
    selector: &Selector,
    word: &Bytes,
    other: &Bytes,
) -> Result<bool, SiteOpenFault>
    requires { list.length other.now ≤ LONGEST_WORD }
    ensures there { ReadsKnown K.store_state K.may_need K.crash_states keeper.old keeper.new result (spec.StandsWith selector.now word.now) (λ item there. there ≡ is_among (words_of item) other.now) }
{
    if other == word {
        return Ok(true);
    }
    has_word(keeper, other, selector)
}

/// Whether an item that has a word has all of these.
pub fn has_all<K: Keeper>(
    keeper: &mut K,
    selector: &Selector,
    word: &Bytes,
    asked: &[Bytes],
) -> Result<bool, SiteOpenFault>
    requires { All (λ w. list.length w ≤ LONGEST_WORD) asked.now }
    ensures all { ReadsKnown K.store_state K.may_need K.crash_states keeper.old keeper.new result (spec.StandsWith selector.now word.now) (λ item all. all ≡ list_all (is_among (words_of item)) asked.now) }
{
    for other in asked {
        match has_too(keeper, selector, word, other) {
            Ok(true) => {}
            Ok(false) => return Ok(false),
            Err(fault) => return Err(fault),
        }
    }
    Ok(true)
}

/// The selector of which a key is that of the word, where it begins with the scope; other keys are of none.
#[tactic(auto, using(crate::proofs::ItemWalks::refused_name))]
fn selector_in(key: &[u8], keys: &WordKeys<'_>) -> Result<Option<Selector>, SiteOpenFault>
    ensures selector { IfOk result (λ found. found ≡ spec.named_by keys.now.scope.now keys.now.word.now key.now) }
    ensures fault { IfErr result (λ e. (e ≡ BadRecord) × IsInvalid (spec.named_by keys.now.scope.now keys.now.word.now key.now)) }
{
    if !key.starts_with(keys.front.as_bytes()) {
        return Ok(None);
    }
    match Selector::new(&key[2 + keys.word.len()..]) {
        Ok(selector) => Ok(Some(selector)),
        Err(_) => Err(SiteOpenFault::BadRecord),
    }
}

/// The selector of the first item within the scope that has the word and stands above one of the scope, by the key of the word and that one.
pub(crate) fn next_with<K: Keeper>(
    keeper: &mut K,
    keys: &WordKeys<'_>,
    after: &Key,
    key: &mut [u8; LONGEST_KEY],
    value: &mut [u8; LONGEST_VALUE],
) -> Result<Option<Selector>, SiteOpenFault>
    requires { spec.IsKeyOf keys.now.word.now after.now }
    ensures next { AlwaysReads K.store_state K.may_need K.crash_states keeper.old keeper.new result IsQuickFault (λ h next. (s : Site) → RepresentedBy h s → spec.GoesToNext s keys.now.scope.now keys.now.word.now after.now next) }
{
    match keeper.next(after.as_bytes(), key, value) {
        Ok(Some((length, _))) => selector_in(&key[..length], keys),
        Ok(None) => Ok(None),
        Err(fault) => Err(SiteOpenFault::Keeper(fault)),
    }
}
