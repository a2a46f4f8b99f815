// A few commits, each made again where it found no memory.
use crate::store::Store;
use crate::trouble::Trouble;
use page_store::LONGEST_VALUE;
use std::alloc::Global;

/// How many commits there are.
const COMMITS: u8 = 4;

/// The puts and the deletes of a commit. Its values are as long as may be, so that pages are split.
fn change(store: &mut Store, commit: u8) -> Result<(), Trouble> {
    let value = [commit; LONGEST_VALUE];
    for number in 0..8u8 {
        let key = [b'k', number.wrapping_mul(53), commit % 2];
        store.put(&key, &value)?;
    }
    for number in 0..4u8 {
        store.delete(&[b'k', number.wrapping_mul(53), 0])?;
    }
    store.commit()
}

/// A store of some pages, tried twice.
fn new_store(alloc: Global) -> Result<Store, Trouble> {
    match Store::new(alloc, 32) {
        Ok(store) => Ok(store),
        Err(_) => Store::new(alloc, 32),
    }
}

/// The height of the tree in the end, how many pairs it has, and how many pages.
pub fn trial(alloc: Global) -> Result<(u16, usize, usize), Trouble> {
    let mut store = new_store(alloc)?;
    for commit in 0..COMMITS {
        if change(&mut store, commit).is_err() {
            store.abandon();
            change(&mut store, commit)?;
        }
    }
    Ok((store.tree.height(), store.pairs()?, store.image.used()))
}
