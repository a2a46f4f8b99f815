// A seeded run of puts and deletes beside a sorted map.
use crate::store::Store;
use crate::trouble::Trouble;
use crate::walk::Walk;
use std::alloc::Global;
use std::collections::BTreeMap;
use test_help::{Dice, key};

/// How many keys a run changes.
/// How many pages the store has.
const PAGES: u32 = 4096;

const KEYS: usize = 400;

/// How many changes are mostly puts, and then mostly deletes.
const WAVE: usize = 1000;

/// A tree and the map beside it, and what was seen of them.
#[derive(Drop)]
pub(crate) struct Run {
    alloc: Global,
    dice: Dice,
    store: Store,
    map: BTreeMap<Vec<u8>, Vec<u8>>,
    changes: usize,
    puts: usize,
    /// The greatest height.
    height: u16,
}

impl Run {
    pub fn new(alloc: Global, seed: u64) -> Result<Run, Trouble> {
        Ok(Run {
            alloc,
            dice: Dice::new(seed),
            store: Store::new(alloc, PAGES)?,
            map: BTreeMap::new(alloc),
            changes: 0,
            puts: 0,
            height: 0,
        })
    }

    /// One put or delete of the tree and of the map.
    fn change(&mut self) -> Result<(), Trouble> {
        let key = key(self.alloc, self.dice.roll(KEYS))?;
        let grows = self.changes / WAVE % 2 == 0;
        let deletes = if grows { 1 } else { 4 };
        if self.dice.roll(5) < deletes {
            self.store.delete(&key)?;
            let _ = self.map.remove(key.as_slice());
        } else {
            let value = self.dice.value(self.alloc)?;
            self.store.put(&key, &value)?;
            let _ = self.map.insert(key, value)?;
            self.puts = self.puts.saturating_add(1);
        }
        self.changes = self.changes.saturating_add(1);
        Ok(())
    }

    /// Whether the tree has the pairs of the map.
    fn compare(&mut self) -> Result<(), Trouble> {
        let mut walk = Walk::new(&self.store.image, &self.map);
        if !walk.meets(&self.store.tree)? {
            return Err(Trouble::Wrong("the pairs are not those of the map"));
        }
        self.height = self.height.max(self.store.tree.height());
        Ok(())
    }

    /// Commits, and counts the pages of the tree.
    fn commit(&mut self) -> Result<(), Trouble> {
        self.store.commit()?;
        let mut walk = Walk::new(&self.store.image, &self.map);
        if !walk.meets(&self.store.tree)? {
            return Err(Trouble::Wrong("the pages are not those of the map"));
        }
        if walk.pages != self.store.image.used() {
            return Err(Trouble::Wrong("a page is lost"));
        }
        Ok(())
    }

    /// So many changes, with a commit after some of them.
    fn run(&mut self, changes: usize) -> Result<(), Trouble> {
        for _ in 0..changes {
            self.change()?;
            self.compare()?;
            if self.dice.roll(16) == 0 {
                self.commit()?;
            }
        }
        Ok(())
    }

    /// A run, and what was seen: how many changes and how many puts; whether a page of level 0, of 1 and of 2 was needed; the greatest height; and once all keys
    /// are taken away, the height, and how many pages are used.
    pub fn figures(&mut self, changes: usize) -> Result<[usize; 8], Trouble> {
        self.run(changes)?;
        let met = self.store.met;
        let mut figures = [0; 8];
        figures[0] = self.changes;
        figures[1] = self.puts;
        figures[2] = met[0] as usize;
        figures[3] = met[1] as usize;
        figures[4] = met[2] as usize;
        figures[5] = self.height as usize;
        self.empty()?;
        figures[6] = self.store.tree.height() as usize;
        figures[7] = self.store.image.used();
        Ok(figures)
    }

    /// Takes all keys away, the first or the last one of all.
    fn empty(&mut self) -> Result<(), Trouble> {
        for at in 0..self.map.len() {
            let next = if at % 2 == 0 {
                self.map.pop_first()
            } else {
                self.map.pop_last()
            };
            if let Some(pair) = next {
                self.store.delete(&pair.0)?;
            }
            self.compare()?;
        }
        self.commit()
    }
}
