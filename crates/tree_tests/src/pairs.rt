// What a keeper has.
use crate::trouble::Trouble;
use common_types::Bytes;
use page_store::{Edit, Figures, Keeper, LONGEST_KEY, LONGEST_VALUE};
use std::alloc::Global;

/// What a keeper has: keys and values by turns, and its figures.
#[derive(Drop, PartialEq)]
pub(crate) struct Kept {
    pub pairs: Vec<Bytes>,
    pub figures: Figures,
}

/// All pairs of a keeper: keys and values by turns.
pub fn pairs_of<K: Keeper>(alloc: Global, keeper: &mut K) -> Result<Vec<Bytes>, Trouble> {
    let mut all = Vec::new(alloc);
    let (mut key, mut value) = ([0; LONGEST_KEY], [0; LONGEST_VALUE]);
    let mut after = Vec::new(alloc);
    for _ in 0..100_000 {
        let Some((key_length, value_length)) = keeper.next(&after, &mut key, &mut value)? else {
            return Ok(all);
        };
        after = key[..key_length].to_vec(alloc)?;
        all.push(Bytes::from_slice(alloc, &key[..key_length])?)?;
        all.push(Bytes::from_slice(alloc, &value[..value_length])?)?;
    }
    Err(Trouble::Wrong("no end of pairs"))
}

/// What a keeper has.
pub fn kept_by<K: Keeper>(alloc: Global, keeper: &mut K) -> Result<Kept, Trouble> {
    Ok(Kept {
        pairs: pairs_of(alloc, keeper)?,
        figures: keeper.figures(),
    })
}

/// The value at a key.
pub fn value_of<K: Keeper>(
    alloc: Global,
    keeper: &mut K,
    key: &[u8],
) -> Result<Option<Bytes>, Trouble> {
    let mut value = [0; LONGEST_VALUE];
    match keeper.get(key, &mut value)? {
        Some(length) => Ok(Some(Bytes::from_slice(alloc, &value[..length])?)),
        None => Ok(None),
    }
}

/// Whether a keeper has what a batch says of its keys.
pub fn has_edits<K: Keeper>(
    alloc: Global,
    keeper: &mut K,
    batch: &[Edit],
) -> Result<bool, Trouble> {
    for edit in batch {
        if value_of(alloc, keeper, edit.key.as_slice())? != edit.value {
            return Ok(false);
        }
    }
    Ok(true)
}

/// A batch of one edit.
pub fn one_edit(alloc: Global, key: &[u8], value: Option<&[u8]>) -> Result<Vec<Edit>, Trouble> {
    let key = Bytes::from_slice(alloc, key)?;
    let value = match value {
        Some(bytes) => Some(Bytes::from_slice(alloc, bytes)?),
        None => None,
    };
    let mut batch = Vec::new(alloc);
    batch.push(Edit { key, value })?;
    Ok(batch)
}
