// Chunks of views as they stood when a pin was made.
ghost use Rattle.std.specs.Prelude.{◌≡◌, ◌≤◌, ◌*◌, true, IfOk, IfErr, IfSome, IsTrue, take, option_map};
ghost use Rattle.std.specs.Prelude as list;
ghost use Rattle.host_types.specs.Site.{Site, item_at};
ghost use Rattle.host_types.specs.Card.{viewed_at, chunk_of};
ghost use Rattle.host_types.specs.SiteState.{IsUnchangedBehind};
ghost use Rattle.page_store.specs.Batch.{value_at};
ghost use Rattle.page_store.specs.Pins.{is_out, pairs_at};
ghost use Rattle.page_store.specs.StoreState.{most_levels};
ghost use Rattle.page_store.specs.Work.{ReadsPages};
ghost use Rattle.site_store.specs.StoreReads.{IsCountedFault, IsKeeperFault, is_document};
ghost use Rattle.site_store.specs.Reads.{AlwaysReads};
ghost use Rattle.site_store.specs.Pinned.{StoodAt, IsPinnedFault};

use crate::SiteOpenFault;
use host_types::Selector;
use page_store::{KeeperFault, LONGEST_VALUE, PinKeeper};
use site_records::{Key, chunk_key, item_key};

/// Puts the value that a pin keeps at a key into the front of the buffer, and answers its length.
fn look_up_at<K: PinKeeper>(
    keeper: &mut K,
    pin: &K::Pin,
    key: &Key,
    buffer: &mut [u8; LONGEST_VALUE],
) -> Result<Option<usize>, SiteOpenFault>
    requires out { IsTrue (is_out (K.store_state keeper.old) (K.number pin.now)) }
    ensures within { IfOk result (λ found. IfSome found (λ n. n ≤ list.length buffer.new)) }
    ensures value { AlwaysReads K.store_state K.may_need K.crash_states keeper.old keeper.new result (λ a b. IsKeeperFault (IsCountedFault a b)) (λ h found. IfSome (pairs_at h (K.number pin.now)) (λ pairs. option_map (λ n. take n buffer.new) found ≡ value_at pairs key.now)) }
    ensures work { ReadsPages most_levels (K.store_state keeper.old).made (K.store_state keeper.new).made }
{
    match keeper.get_at(pin, key.as_bytes(), buffer) {
        Ok(found) => Ok(found),
        Err(fault) => Err(SiteOpenFault::Keeper(fault)),
    }
}

/// Whether a document stood at a selector.
fn has_document_at<K: PinKeeper>(
    keeper: &mut K,
    pin: &K::Pin,
    selector: &Selector,
) -> Result<bool, SiteOpenFault>
    requires out { IsTrue (is_out (K.store_state keeper.old) (K.number pin.now)) }
    ensures document { AlwaysReads K.store_state K.may_need K.crash_states keeper.old keeper.new result (IsPinnedFault (K.number pin.now)) (λ h yes. (s : Site) → StoodAt (K.number pin.now) h s → yes ≡ is_document (item_at s selector.now)) }
    ensures work { ReadsPages most_levels (K.store_state keeper.old).made (K.store_state keeper.new).made }
{
    let mut buffer = [0; LONGEST_VALUE];
    match look_up_at(keeper, pin, &item_key(selector), &mut buffer) {
        Ok(Some(length)) => Ok(length > 0 && buffer[0] == b'V'),
        Ok(None) => Ok(false),
        Err(fault) => Err(fault),
    }
}

/// Puts some bytes into the front of the buffer; what stands behind them stays.
fn copy_front(bytes: &[u8], buffer: &mut [u8; 1000])
    requires { list.length bytes.now ≤ 1000 }
    ensures front { take (list.length bytes.now) buffer.new ≡ bytes.now }
    ensures behind { IsUnchangedBehind (list.length bytes.now) buffer.old buffer.new }
    ensures length { list.length buffer.new ≡ 1000 }
{
    buffer[..bytes.len()].copy_from_slice(bytes);
}

/// Puts chunk k of a view of a document that stood there into the front of the buffer, and answers its length; of what was no document it says nothing. What stands behind it stays, and after a fault the whole buffer does.
pub fn document_chunk_at<K: PinKeeper>(
    keeper: &mut K,
    pin: &K::Pin,
    selector: &Selector,
    view: usize,
    k: usize,
    buffer: &mut [u8; 1000],
) -> Result<usize, SiteOpenFault>
    requires out { IsTrue (is_out (K.store_state keeper.old) (K.number pin.now)) }
    ensures within { IfOk result (λ n. n ≤ list.length buffer.new) }
    ensures chunk { AlwaysReads K.store_state K.may_need K.crash_states keeper.old keeper.new result (IsPinnedFault (K.number pin.now))
        (λ h n. (s : Site) → StoodAt (K.number pin.now) h s → is_document (item_at s selector.now) ≡ true → take n buffer.new ≡ chunk_of (viewed_at s selector.now view) k) }
    ensures behind { IfOk result (λ n. IsUnchangedBehind n buffer.old buffer.new) }
    ensures untouched { IfErr result (λ e. buffer.new ≡ buffer.old) }
    // One look-up: of the chunk.
    ensures work { ReadsPages most_levels (K.store_state keeper.old).made (K.store_state keeper.new).made }
{
    if !keeper.is_usable() {
        return Err(SiteOpenFault::Keeper(KeeperFault::Failed));
    }
    if view > 255 || k > 65_535 {
        return Ok(0);
    }
    let key = chunk_key(selector, view as u8, k as u16);
    let mut found = [0; LONGEST_VALUE];
    match look_up_at(keeper, pin, &key, &mut found) {
        Ok(Some(length)) if length <= 1000 => {
            copy_front(&found[..length], buffer);
            Ok(length)
        }
        Ok(Some(_)) => Err(SiteOpenFault::BadRecord),
        Ok(None) => Ok(0),
        Err(fault) => Err(fault),
    }
}

/// Puts chunk k of a view as it stood into the front of the buffer, and answers its length. What stands behind it stays, and after a fault the whole buffer does.
pub fn chunk_in_at<K: PinKeeper>(
    keeper: &mut K,
    pin: &K::Pin,
    selector: &Selector,
    view: usize,
    k: usize,
    buffer: &mut [u8; 1000],
) -> Result<usize, SiteOpenFault>
    requires out { IsTrue (is_out (K.store_state keeper.old) (K.number pin.now)) }
    ensures within { IfOk result (λ n. n ≤ list.length buffer.new) }
    ensures chunk { AlwaysReads K.store_state K.may_need K.crash_states keeper.old keeper.new result (IsPinnedFault (K.number pin.now)) (λ h n. (s : Site) → StoodAt (K.number pin.now) h s → take n buffer.new ≡ chunk_of (viewed_at s selector.now view) k) }
    ensures behind { IfOk result (λ n. IsUnchangedBehind n buffer.old buffer.new) }
    ensures untouched { IfErr result (λ e. buffer.new ≡ buffer.old) }
    // Two look-ups: of the document, and of the chunk.
    ensures work { ReadsPages (2 * most_levels) (K.store_state keeper.old).made (K.store_state keeper.new).made }
{
    match has_document_at(keeper, pin, selector) {
        Ok(true) => document_chunk_at(keeper, pin, selector, view, k, buffer),
        Ok(false) => Ok(0),
        Err(fault) => Err(fault),
    }
}
