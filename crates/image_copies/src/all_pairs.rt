// All pairs of a keeper of a tree.
ghost use Rattle.std.specs.Prelude.{◌↔◌, ◌≡◌, ◌≤◌, true, IsTrue, IfOk, IfSome, length};
ghost use Rattle.page_store.specs.Sizes.{longest_key, longest_value};
ghost use Rattle.page_store.specs.Batch.{is_map, pair_after};
ghost use Rattle.page_store.specs.PairsInOrder.{last_key};
ghost use Rattle.page_store.specs.Steps.{crash_states_of};
ghost use Rattle.cow_tree.specs.Compacting.{most_pairs};
ghost use Rattle.cow_tree.specs.TreeSeen.{held, device_of, is_open, kept_by};
ghost use Rattle.image_copies.specs.SitesRead.{ReadsAllPairs};

use cow_tree::TreeKeeper;
use image_commands::ImageFault;
use page_store::{Keeper, KeeperFault, LONGEST_KEY, LONGEST_VALUE, Pair};
use sector_device::Device;
use std::alloc::Global;

/// How many pairs an image may have: 1,024 in each of 65,536 pages.
const MOST_PAIRS: usize = 1024 * 65536;

/// A read failed. A device that gives something else than before is told so too.
const NOT_READ: ImageFault = ImageFault::Store(KeeperFault::Device);

/// The key of the last pair, or the empty key.
fn last_key(pairs: &[Pair]) -> &[u8]
    ensures { result.now ≡ last_key pairs.now }
{
    match pairs.last() {
        Some(last) => last.key(),
        None => &[],
    }
}

/// The pair behind these, the first ones of a keeper.
fn pair_behind<D: Device>(
    alloc: Global,
    keeper: &mut TreeKeeper<D>,
    pairs: &[Pair],
) -> Result<Option<Pair>, ImageFault>
    requires usable { is_open keeper.old ≡ true }
    ensures pair { IsTrue (held D.state keeper.old).honest → IfOk result (λ next. next ≡ pair_after (held D.state keeper.old).pairs (last_key pairs.now)) }
    ensures tells { IfOk result (λ next. next ≡ pair_after (kept_by keeper.new) (last_key pairs.now)) }
    ensures short { IfOk result (λ next. IfSome next (λ p. length p.0 ≤ longest_key)) }
    ensures few { IfOk result (λ next. IfSome next (λ p. length p.1 ≤ longest_value)) }
    ensures reads { ReadsAllPairs (held D.state) (λ k. crash_states_of D.moment D.possible_since (device_of k)) keeper.old keeper.new result }
{
    let (mut key, mut value) = ([0; LONGEST_KEY], [0; LONGEST_VALUE]);
    match keeper.next(last_key(pairs), &mut key, &mut value) {
        Ok(Some((size, length))) => {
            let pair = Pair::from_slices(alloc, &key[..size], &value[..length])?;
            Ok(Some(pair))
        }
        Ok(None) => Ok(None),
        Err(_) => Err(NOT_READ),
    }
}

/// Whether these are as many pairs as a keeper counts.
fn are_all<D: Device>(keeper: &TreeKeeper<D>, pairs: &[Pair]) -> bool
    ensures { IsTrue result ↔ (length pairs.now ≡ (held D.state keeper.now).keys) }
{
    pairs.len() as u64 == keeper.figures().keys
}

/// All pairs of a keeper. Where they aren't as many as it counts they are not read, which can come of a lying device alone.
pub(crate) fn all_pairs<D: Device>(
    alloc: Global,
    keeper: &mut TreeKeeper<D>,
) -> Result<Vec<Pair>, ImageFault>
    requires usable { is_open keeper.old ≡ true }
    ensures pairs { IsTrue (held D.state keeper.old).honest → IfOk result (λ pairs. pairs.items ≡ (held D.state keeper.old).pairs) }
    ensures map { IfOk result (λ pairs. is_map pairs.items ≡ true) }
    ensures few { IfOk result (λ pairs. length pairs.items ≤ most_pairs) }
    ensures counted { IfOk result (λ pairs. length pairs.items ≡ (held D.state keeper.old).keys) }
    ensures reads { ReadsAllPairs (held D.state) (λ k. crash_states_of D.moment D.possible_since (device_of k)) keeper.old keeper.new result }
{
    let mut pairs = Vec::new(alloc);
    for _ in 0..MOST_PAIRS + 1 {
        match pair_behind(alloc, keeper, &pairs) {
            Ok(Some(pair)) => pairs.push(pair)?,
            Ok(None) if are_all(keeper, &pairs) => return Ok(pairs),
            Ok(None) => return Err(NOT_READ),
            Err(fault) => return Err(fault),
        }
    }
    Err(NOT_READ)
}
