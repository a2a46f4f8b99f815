// Batches that a tree takes.
use crate::trouble::Trouble;
use cow_tree::TreeKeeper;
use page_store::{Edit, Keeper};
use sector_device::Device;
use test_help::is_batch;

/// Commits a batch to a tree, under the banner that it has.
pub fn commit<D: Device>(keeper: &mut TreeKeeper<D>, batch: &[Edit]) -> Result<(), Trouble> {
    let banner = keeper.banner().clone()?;
    let is_tree = banner.version == 1 || banner.version == 2;
    if !is_tree || banner.port == 0 || !is_batch(batch) {
        return Err(Trouble::Wrong("not a batch of a tree"));
    }
    Ok(keeper.commit(batch, banner)?)
}
