// Random batches, committed to a tree and to flat pages.
use crate::batches::{commit_flat, commit_tree};
use crate::made::{
    Sectors, device_under, disk_of, height_of, image_of, new_flat, new_tree, open_flat, open_tree,
};
use crate::pairs::{has_edits, kept_by, pairs_of};
use crate::trouble::Trouble;
use common_types::Bytes;
use cow_tree::TreeKeeper;
use page_store::{Edit, Keeper, KeeperFault, LONGEST_KEY, LONGEST_VALUE};
use sector_device::MemDisk;
use std::alloc::Global;
use std::collections::BTreeMap;
use std::mem;
use test_help::{Dice, key};

/// How many pages the image of the tree has, and the one of the flat pages.
const TREE_PAGES: u16 = 256;

const FLAT_PAGES: u16 = 600;

/// How many long keys there are, and how many short ones.
const LONG_KEYS: usize = 500;

const SHORT_KEYS: usize = 12;

/// How many batches are mostly puts, and then mostly deletes.
const WAVE: usize = 50;

/// For how many commits a tree stays open.
const STRETCH: usize = 50;

/// The edits of a batch by their keys, which rise.
type Edits = BTreeMap<Vec<u8>, Option<Vec<u8>>>;

/// What was seen of a run.
#[derive(Clone, Copy)]
pub(crate) struct Seen {
    /// How many batches were committed, and how many edits they had.
    pub commits: usize,
    pub edits: usize,
    /// How many batches a keeper had no room for.
    pub full: usize,
    /// The greatest number of pairs, the fewest free pages, and the greatest height.
    pub pairs: u64,
    pub free: u64,
    pub height: u16,
}

/// A tree that stays open for many commits, the image from before and the batches of them, and flat pages.
#[derive(Drop)]
pub(crate) struct Run {
    alloc: Global,
    dice: Dice,
    tree: TreeKeeper<MemDisk>,
    start: Sectors,
    since: Vec<Vec<Edit>>,
    flat_image: Sectors,
    batches: usize,
    seen: Seen,
}

impl Run {
    pub fn new(alloc: Global, seed: u64) -> Result<Run, Trouble> {
        let disk = new_tree(alloc, TREE_PAGES)?;
        let start = image_of(alloc, &disk)?;
        Ok(Run {
            alloc,
            dice: Dice::new(seed),
            tree: open_tree(alloc, disk)?,
            start,
            since: Vec::new(alloc),
            flat_image: image_of(alloc, &new_flat(alloc, FLAT_PAGES)?)?,
            batches: 0,
            seen: Seen {
                commits: 0,
                edits: 0,
                full: 0,
                pairs: 0,
                free: u64::MAX,
                height: 0,
            },
        })
    }

    /// A key of the short or the long ones.
    fn key(&mut self) -> Result<Vec<u8>, Trouble> {
        if self.dice.roll(4) == 0 {
            let number = self.dice.roll(SHORT_KEYS);
            return Ok([b's', number as u8].to_vec(self.alloc)?);
        }
        Ok(key(self.alloc, self.dice.roll(LONG_KEYS))?)
    }

    /// Puts and deletes, mostly the one or the other.
    fn mixed(&mut self, edits: &mut Edits, count: usize) -> Result<(), Trouble> {
        let grows = self.batches / WAVE % 2 == 0;
        let deletes = if grows { 1 } else { 5 };
        for _ in 0..count {
            let key = self.key()?;
            let value = match self.dice.roll(8) < deletes {
                true => None,
                false => Some(self.dice.value(self.alloc)?),
            };
            let _ = edits.insert(key, value)?;
        }
        Ok(())
    }

    /// Deletes of pairs that stand side by side.
    fn row(&mut self, edits: &mut Edits, count: usize) -> Result<(), Trouble> {
        let (mut key, mut value) = ([0; LONGEST_KEY], [0; LONGEST_VALUE]);
        let mut after = self.key()?;
        for _ in 0..count {
            let Some((length, _)) = self.tree.next(&after, &mut key, &mut value)? else {
                return Ok(());
            };
            after = key[..length].to_vec(self.alloc)?;
            let _ = edits.insert(after.clone()?, None)?;
        }
        Ok(())
    }

    /// A batch of one to eight edits; now and then one of deletes side by side.
    fn batch(&mut self) -> Result<Vec<Edit>, Trouble> {
        let mut edits = BTreeMap::new(self.alloc);
        let count = 1 + self.dice.roll(8);
        match self.dice.roll(8) {
            0 => self.row(&mut edits, count)?,
            _ => self.mixed(&mut edits, count)?,
        }
        self.batches = self.batches.saturating_add(1);
        batch_of(self.alloc, &edits)
    }

    /// The image of the flat pages after a batch, and their pairs. The batch's keys are as it says there.
    fn flat_after(&mut self, batch: &[Edit]) -> Result<(Sectors, Vec<Bytes>), Trouble> {
        let mut flat = open_flat(self.alloc, disk_of(self.alloc, &self.flat_image)?)?;
        commit_flat(&mut flat, batch)?;
        if !has_edits(self.alloc, &mut flat, batch)? {
            return Err(Trouble::Wrong("flat pages have other values"));
        }
        let pairs = pairs_of(self.alloc, &mut flat)?;
        Ok((image_of(self.alloc, &flat.into_device())?, pairs))
    }

    /// The disk of the tree, by the same commits over the same image.
    fn image_again(&self) -> Result<Sectors, Trouble> {
        let mut tree = open_tree(self.alloc, disk_of(self.alloc, &self.start)?)?;
        for batch in &self.since {
            commit_tree(&mut tree, batch)?;
        }
        image_of(self.alloc, &device_under(tree)?)
    }

    /// Goes on with what opened from the disk of the tree, which it is seen to be.
    fn renew(&mut self, image: Sectors, again: TreeKeeper<MemDisk>) -> Result<(), Trouble> {
        let tree = mem::replace(&mut self.tree, again);
        if image_of(self.alloc, &device_under(tree)?)? != image {
            return Err(Trouble::Wrong("another disk"));
        }
        self.start = image;
        self.since = Vec::new(self.alloc);
        Ok(())
    }

    /// Compares the tree with flat pages, and with what opens from its disk.
    fn compare(&mut self, pairs: &[Bytes]) -> Result<(), Trouble> {
        let kept = kept_by(self.alloc, &mut self.tree)?;
        if kept.pairs.as_slice() != pairs {
            return Err(Trouble::Wrong("the tree has other pairs"));
        }
        let image = self.image_again()?;
        let mut again = open_tree(self.alloc, disk_of(self.alloc, &image)?)?;
        if kept_by(self.alloc, &mut again)? != kept {
            return Err(Trouble::Wrong("what opens is another tree"));
        }
        self.seen.pairs = self.seen.pairs.max(kept.figures.keys);
        self.seen.free = self.seen.free.min(kept.figures.free);
        self.seen.height = self.seen.height.max(height_of(self.alloc, &image)?);
        if self.since.len() >= STRETCH {
            return self.renew(image, again);
        }
        Ok(())
    }

    /// Commits a batch to both.
    fn commit(&mut self, batch: Vec<Edit>) -> Result<(), Trouble> {
        let (flat_image, pairs) = self.flat_after(&batch)?;
        commit_tree(&mut self.tree, &batch)?;
        if !has_edits(self.alloc, &mut self.tree, &batch)? {
            return Err(Trouble::Wrong("the tree has other values"));
        }
        self.flat_image = flat_image;
        self.seen.commits = self.seen.commits.saturating_add(1);
        self.seen.edits = self.seen.edits.saturating_add(batch.len());
        self.since.push(batch)?;
        self.compare(&pairs)
    }

    /// So many batches, and what was seen of them.
    pub fn run(self, batches: usize) -> Result<Seen, Trouble> {
        let mut run = self;
        for _ in 0..batches {
            let batch = run.batch()?;
            match run.commit(batch) {
                Ok(()) => {}
                Err(Trouble::Keeper(KeeperFault::Full { .. })) => {
                    run.seen.full = run.seen.full.saturating_add(1);
                }
                Err(trouble) => return Err(trouble),
            }
        }
        let image = run.image_again()?;
        let again = open_tree(run.alloc, disk_of(run.alloc, &image)?)?;
        run.renew(image, again)?;
        Ok(run.seen)
    }
}

/// The batch of some edits.
fn batch_of(alloc: Global, edits: &Edits) -> Result<Vec<Edit>, Trouble> {
    let mut batch = Vec::new(alloc);
    for (key, value) in edits.iter() {
        let key = Bytes::from_slice(alloc, key)?;
        let value = match value {
            Some(bytes) => Some(Bytes::from_slice(alloc, bytes)?),
            None => None,
        };
        batch.push(Edit { key, value })?;
    }
    Ok(batch)
}
