// Batches that a keeper takes.
use crate::trouble::Trouble;
use cow_tree::TreeKeeper;
use page_store::{Edit, FlatKeeper, Keeper};
use sector_device::Device;
use test_help::is_batch;

/// Commits a batch to a tree, under the banner that it has.
pub fn commit_tree<D: Device>(keeper: &mut TreeKeeper<D>, batch: &[Edit]) -> Result<(), Trouble> {
    let banner = keeper.banner().clone()?;
    let is_tree = banner.version == 1 || banner.version == 2;
    if !is_tree || banner.port == 0 || !is_batch(batch) {
        return Err(Trouble::Wrong("not a batch of a tree"));
    }
    Ok(keeper.commit(batch, banner)?)
}

/// The same of flat pages.
pub fn commit_flat<D: Device>(keeper: &mut FlatKeeper<D>, batch: &[Edit]) -> Result<(), Trouble> {
    let banner = keeper.banner().clone()?;
    if banner.version != 0 || banner.port == 0 || !is_batch(batch) {
        return Err(Trouble::Wrong("not a batch of flat pages"));
    }
    Ok(keeper.commit(batch, banner)?)
}
