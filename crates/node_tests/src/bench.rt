// What the lines of a run share, and which call a word names.
use crate::commits::take_many;
use crate::fields::{bytes_of, level_of, number, two_of};
use crate::laws::laws;
use crate::ledger::free_counts;
use crate::random::Run;
use crate::shown::Shown;
use crate::store::Store;
use crate::timed::{delete_many, owned_pairs, put_many, read_many};
use crate::trouble::Trouble;
use std::alloc::Global;
use tree_nodes::{EditAnswer, encode, is_writable, read_node};

/// How many pages the image of a bench has.
const PAGES: u32 = 64;

/// A tree over an image.
#[derive(Drop)]
pub(crate) struct Bench {
    alloc: Global,
    store: Store,
}

impl Bench {
    pub fn new(alloc: Global) -> Result<Bench, Trouble> {
        Ok(Bench {
            alloc,
            store: Store::new(alloc, PAGES)?,
        })
    }

    /// `put KEY VALUE`
    fn put(&mut self, fields: &str, shown: &mut Shown) -> Result<(), Trouble> {
        let (key, value) = two_of(fields)?;
        let key = bytes_of(self.alloc, key)?;
        let value = bytes_of(self.alloc, value)?;
        shown.answer(self.store.try_put(&key, &value)?)
    }

    /// `delete KEY`
    fn delete(&mut self, key: &str, shown: &mut Shown) -> Result<(), Trouble> {
        let key = bytes_of(self.alloc, key)?;
        shown.answer(self.store.tree.delete(&key))
    }

    /// `supply KEY PAGE`
    fn supply(&mut self, fields: &str) -> Result<(), Trouble> {
        let (key, page) = two_of(fields)?;
        let key = bytes_of(self.alloc, key)?;
        self.store.supply(&key, number(page)?)
    }

    /// `needed KEY`
    fn needed(&self, key: &str, shown: &mut Shown) -> Result<(), Trouble> {
        let key = bytes_of(self.alloc, key)?;
        match self.store.tree.needed(&key) {
            Some(page) => shown.answer(EditAnswer::Need(page)),
            None => shown.answer(EditAnswer::Done),
        }
    }

    /// The tree: its height, its nodes, and how many pages are free.
    fn shape(&self, shown: &mut Shown) -> Result<(), Trouble> {
        shown.number(self.store.tree.height() as usize)?;
        match self.store.tree.root() {
            Some(root) => shown.node(root)?,
            None => shown.word("none")?,
        }
        shown.number(self.store.image.free())
    }

    /// `encode PAGE GENERATION`: the root, a leaf, as a page.
    fn encode(&self, fields: &str, shown: &mut Shown) -> Result<(), Trouble> {
        let (page, generation) = two_of(fields)?;
        let (page, generation) = (number(page)?, number(generation)?);
        match self.store.tree.root() {
            Some(root) if is_writable(root) => {
                shown.bytes(&encode(self.alloc, root, page, generation.into(), 0)?)
            }
            _ => Err(Trouble::Line),
        }
    }

    /// `read PAGE LEVEL`: the node that a page says.
    fn read(&self, fields: &str, shown: &mut Shown) -> Result<(), Trouble> {
        let (page, level) = two_of(fields)?;
        let (page, level) = (number(page)?, level_of(level)?);
        let bytes = self.store.image.read(page)?;
        let node = read_node(self.alloc, self.store.image.bounds(), level, page, bytes)?;
        shown.node(&node)
    }

    /// `get PAGE KEY`, `after PAGE KEY` and `page_of PAGE KEY`
    fn look(&self, word: &str, fields: &str, shown: &mut Shown) -> Result<(), Trouble> {
        let (page, key) = two_of(fields)?;
        let page = number(page)?;
        let key = bytes_of(self.alloc, key)?;
        match word {
            "get" => self.store.image.show_value(page, &key, shown),
            "after" => self.store.image.show_after(page, &key, shown),
            "page_of" => self.store.image.show_page(page, &key, shown),
            _ => Err(Trouble::Line),
        }
    }

    /// `between PAGE LEVEL LOW HIGH`: how many entries a page has, where its keys lie between two. `none` is no bound.
    fn between(&self, fields: &str, shown: &mut Shown) -> Result<(), Trouble> {
        let (page, fields) = two_of(fields)?;
        let (level, fields) = two_of(fields)?;
        let (low, high) = two_of(fields)?;
        let (page, level) = (number(page)?, level_of(level)?);
        let low = bytes_of(self.alloc, low)?;
        if high == "none" {
            return shown.number(self.store.image.count_between(page, level, &low, None)?);
        }
        let high = bytes_of(self.alloc, high)?;
        let count = self
            .store
            .image
            .count_between(page, level, &low, Some(&high))?;
        shown.number(count)
    }

    /// `random SEED CHANGES`
    fn random(&self, fields: &str, shown: &mut Shown) -> Result<(), Trouble> {
        let (seed, changes) = two_of(fields)?;
        let mut run = Run::new(self.alloc, number(seed)?.into())?;
        let figures = run.figures(number(changes)? as usize)?;
        shown.numbers(&figures)
    }

    fn ledger(&self, shown: &mut Shown) -> Result<(), Trouble> {
        shown.numbers(&free_counts(self.alloc)?)
    }

    /// `puts FIRST MANY`
    fn puts(&mut self, fields: &str, shown: &mut Shown) -> Result<(), Trouble> {
        let (first, many) = two_of(fields)?;
        let made = put_many(&mut self.store, number(first)?, number(many)?)?;
        shown.number(made)
    }

    /// `deletes FIRST MANY`
    fn deletes(&mut self, fields: &str, shown: &mut Shown) -> Result<(), Trouble> {
        let (first, many) = two_of(fields)?;
        let made = delete_many(&mut self.store, number(first)?, number(many)?);
        shown.number(made)
    }

    /// The height of the tree, and how many pairs are in memory.
    fn pairs(&self, shown: &mut Shown) -> Result<(), Trouble> {
        shown.number(self.store.tree.height() as usize)?;
        match self.store.tree.root() {
            Some(root) => shown.number(owned_pairs(root)),
            None => shown.number(0),
        }
    }

    /// `reads PAGE MANY`
    fn reads(&self, fields: &str, shown: &mut Shown) -> Result<(), Trouble> {
        let (page, many) = two_of(fields)?;
        shown.numbers(&read_many(&self.store.image, number(page)?, number(many)?)?)
    }

    /// `takes PAGES STEP MANY`
    fn takes(&self, fields: &str, shown: &mut Shown) -> Result<(), Trouble> {
        let (pages, fields) = two_of(fields)?;
        let (step, many) = two_of(fields)?;
        let (pages, step) = (number(pages)?, number(step)?);
        if pages < 2 {
            return Err(Trouble::Line);
        }
        shown.numbers(&take_many(self.alloc, pages, step, number(many)?)?)
    }

    /// A call that changes nothing.
    fn show(&self, word: &str, fields: &str, shown: &mut Shown) -> Result<(), Trouble> {
        match word {
            "needed" => self.needed(fields, shown),
            "shape" => self.shape(shown),
            "encode" => self.encode(fields, shown),
            "read" => self.read(fields, shown),
            "between" => self.between(fields, shown),
            "random" => self.random(fields, shown),
            "ledger" => self.ledger(shown),
            "pairs" => self.pairs(shown),
            "reads" => self.reads(fields, shown),
            "takes" => self.takes(fields, shown),
            "laws" => {
                laws();
                Ok(())
            }
            _ => self.look(word, fields, shown),
        }
    }

    /// Makes the call of a line, and adds its answer.
    pub fn call(&mut self, text: &str, shown: &mut Shown) -> Result<(), Trouble> {
        let (word, fields) = text.split_once(' ').unwrap_or((text, ""));
        match word {
            "new" => {
                self.store = Store::new(self.alloc, PAGES)?;
                Ok(())
            }
            "put" => self.put(fields, shown),
            "delete" => self.delete(fields, shown),
            "supply" => self.supply(fields),
            "puts" => self.puts(fields, shown),
            "deletes" => self.deletes(fields, shown),
            "commit" => self.store.commit(),
            "abandon" => {
                self.store.abandon();
                Ok(())
            }
            _ => self.show(word, fields, shown),
        }
    }
}
