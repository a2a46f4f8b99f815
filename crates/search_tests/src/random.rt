// Random sites, changes and queries.
ghost use Rattle.std.specs.Prelude.{◌<◌};

use crate::sites::{Query, Sites};
use crate::trouble::Trouble;
use host_types::{Body, Bytes, Change, Item, Selector, SiteFault, Stamp, Title};
use std::alloc::Global;
use test_help::Dice;

/// The words of items. Some are fronts of others.
const WORDS: [&[u8]; 8] = [
    b"a", b"ar", b"art", b"artist", b"artists", b"b", b"b7", b"river",
];

/// The words of queries: those of items, one in capitals, a front that is no word, the title of the top menu, and one that no item has.
const ASKED: [&[u8]; 12] = [
    b"a", b"ar", b"art", b"artist", b"artists", b"b", b"b7", b"river", b"ART", b"arti", b"top",
    b"sea",
];

/// Where items stand.
const NAMES: [&[u8]; 20] = [
    b"a", b"a/", b"a/1", b"a/10", b"a/2", b"a0", b"ab", b"ab/1", b"b", b"b/1", b"b/2", b"b/art",
    b"c", b"c/1", b"c/1/1", b"c/1/2", b"c/2", b"d", b"d/river", b"e",
];

const SCOPES: [&[u8]; 10] = [
    b"", b"", b"", b"a", b"a/", b"a/1", b"b/", b"c/1", b"d/r", b"z",
];

/// How many changes are made of a site, and how many queries come behind each.
const STEPS: usize = 10;

const QUERIES: usize = 5;

/// What was seen of a run.
#[derive(Clone, Copy)]
pub(crate) struct Seen {
    /// How many changes were made, and how many were refused.
    pub changes: usize,
    pub refused: usize,
    /// How many queries were asked, how many items were found in all, and how many queries have not the same answer everywhere.
    pub queries: usize,
    pub found: usize,
    pub differ: usize,
}

impl Seen {
    fn none() -> Seen {
        Seen {
            changes: 0,
            refused: 0,
            queries: 0,
            found: 0,
            differ: 0,
        }
    }
}

/// A site, and what was seen of it and of those before.
#[derive(Drop)]
struct Run {
    alloc: Global,
    dice: Dice,
    /// Whether some items have an end, and queries come at any moment.
    has_ends: bool,
    sites: Sites,
    seen: Seen,
}

impl Run {
    /// One of some moments that lie side by side, in seconds.
    fn moment(&mut self) -> u64 {
        self.dice.roll(6) as u64
    }

    /// The end of an item, in seconds, which half of them have where any has.
    fn end(&mut self) -> Option<u64> {
        if self.has_ends && self.dice.roll(2) == 0 {
            return Some(self.moment());
        }
        None
    }

    /// When a query is asked, in seconds.
    fn now(&mut self) -> u64 {
        if self.has_ends {
            return self.moment();
        }
        0
    }

    /// Fewer words of these than so many, with a gap behind each.
    fn words(&mut self, words: &[&[u8]], below: usize) -> Result<Vec<u8>, Trouble>
        requires { 0 < below }
    {
        let mut text = Vec::new(self.alloc);
        if words.is_empty() {
            return Ok(text);
        }
        for _ in 0..self.dice.roll(below) {
            text.extend_from_slice(words[self.dice.roll(words.len())])?;
            text.push(b" -."[self.dice.roll(3)])?;
        }
        Ok(text)
    }

    fn name(&mut self) -> Result<Selector, Trouble> {
        Ok(Selector::new(NAMES[self.dice.roll(NAMES.len())])?)
    }

    /// Anything but a text has the words of its title and its summary alone.
    fn body(&mut self, text: Body) -> Body {
        match self.dice.roll(4) {
            0 => Body::Search {
                scope: Selector::root(),
            },
            _ => text,
        }
    }

    fn item(&mut self) -> Result<Item, Trouble> {
        let title = Title::new(&self.words(&WORDS, 4)?)?;
        let summary = Bytes::from(self.words(&WORDS, 4)?);
        let text = Bytes::from(self.words(&WORDS, 6)?);
        let item = Item::text(self.alloc, title, Stamp::start(), text)?;
        let until = match self.end() {
            Some(seconds) => Some(Stamp::new(seconds)?),
            None => None,
        };
        Ok(Item {
            title: item.title,
            stamp: item.stamp,
            until,
            summary,
            body: self.body(item.body),
        })
    }

    fn put(&mut self) -> Result<Change, Trouble> {
        Ok(Change::Put(self.name()?, self.item()?))
    }

    /// A put, which may be a replacement, a removal or a move.
    fn any_change(&mut self) -> Result<Change, Trouble> {
        match self.dice.roll(8) {
            0 | 1 => Ok(Change::Remove(self.name()?)),
            2 => Ok(Change::Move {
                from: self.name()?,
                to: self.name()?,
            }),
            _ => self.put(),
        }
    }

    /// Makes a change, or sees it refused.
    fn change(&mut self, change: Change) -> Result<(), Trouble> {
        match self.sites.change(change) {
            Ok(()) => self.seen.changes = self.seen.changes.saturating_add(1),
            Err(Trouble::Site(SiteFault::Refused(_))) => {
                self.seen.refused = self.seen.refused.saturating_add(1);
            }
            Err(trouble) => return Err(trouble),
        }
        Ok(())
    }

    fn query(&mut self) -> Result<Query, Trouble> {
        let scope = Selector::new(SCOPES[self.dice.roll(SCOPES.len())])?;
        let words = self.words(&ASKED, 4)?;
        let now = Stamp::new(self.now())?;
        Ok(Query { scope, words, now })
    }

    /// Asks some queries.
    fn ask(&mut self) -> Result<(), Trouble> {
        let mut queries = Vec::new(self.alloc);
        for _ in 0..QUERIES {
            queries.push(self.query()?)?;
        }
        let answers = self.sites.search(&queries)?;
        self.seen.queries = self.seen.queries.saturating_add(answers.found.len());
        self.seen.differ = self.seen.differ.saturating_add(answers.differ);
        for found in &answers.found {
            self.seen.found = self.seen.found.saturating_add(found.as_slice().len());
        }
        Ok(())
    }

    /// Begins with a new site of up to 20 items.
    fn begin(&mut self) -> Result<(), Trouble> {
        self.sites = Sites::new(self.alloc)?;
        for _ in 0..self.dice.roll(21) {
            let change = self.put()?;
            self.change(change)?;
        }
        Ok(())
    }

    /// Asks of a new site, and behind each of its changes.
    fn try_site(&mut self) -> Result<(), Trouble> {
        self.begin()?;
        for _ in 0..STEPS {
            let change = self.any_change()?;
            self.change(change)?;
            self.ask()?;
        }
        Ok(())
    }
}

/// What is seen of so many sites, of which items may have an end.
pub fn random(alloc: Global, seed: u64, sites: u32, has_ends: bool) -> Result<Seen, Trouble> {
    let mut run = Run {
        alloc,
        dice: Dice::new(seed),
        has_ends,
        sites: Sites::new(alloc)?,
        seen: Seen::none(),
    };
    for _ in 0..sites {
        run.try_site()?;
    }
    Ok(run.seen)
}
