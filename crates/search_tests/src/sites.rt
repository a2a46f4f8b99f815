// The same site twice, on a disk and in memory, and queries to both.
use crate::counting::Reads;
use crate::made::{Tree, TreeSite, device_under, in_memory, of_image, on_disk, site_on};
use crate::trouble::Trouble;
use host_types::{Change, Selector, SiteKeeper, Stamp};
use mem_site::MemSite;
use site_store::search_by_filter;
use std::alloc::Global;
use std::cell::Cell;
use std::rc::Rc;
use word_search::{Find, FindList, SearchKeeper};

/// What is asked for: words within a scope, at a moment.
#[derive(Drop)]
pub(crate) struct Query {
    pub scope: Selector,
    pub words: Vec<u8>,
    pub now: Stamp,
}

/// What is found for each query, and how many of them have another answer elsewhere.
#[derive(Drop)]
pub(crate) struct Answers {
    pub found: Vec<FindList>,
    pub differ: usize,
}

/// The same site on a disk and in memory.
#[derive(Drop)]
pub(crate) struct Sites {
    alloc: Global,
    disk: Option<TreeSite>,
    memory: MemSite,
    reads: Reads,
    /// The moment of the rows that search.
    pub now: Stamp,
}

/// What a site finds for each query.
fn found_in<S: SearchKeeper>(
    alloc: Global,
    site: &mut S,
    queries: &[Query],
) -> Result<Vec<FindList>, Trouble> {
    let mut found = Vec::new(alloc);
    for query in queries {
        found.push(site.search(&query.scope, &query.words, query.now)?)?;
    }
    Ok(found)
}

/// The same by a look at each item.
fn filtered_in(
    alloc: Global,
    keeper: &mut Tree,
    queries: &[Query],
) -> Result<Vec<FindList>, Trouble> {
    let mut found = Vec::new(alloc);
    for query in queries {
        found.push(search_by_filter(alloc, keeper, &query.scope, &query.words, query.now)?)?;
    }
    Ok(found)
}

/// Whether two finds are the same.
fn is_same(one: &Find, other: &Find) -> bool {
    one.selector == other.selector
        && one.front.title == other.front.title
        && one.front.until == other.front.until
        && one.front.sort == other.front.sort
}

/// Whether two searches find the same.
fn find_the_same(one: &FindList, other: &FindList) -> bool {
    let (one, other) = (one.as_slice(), other.as_slice());
    one.len() == other.len()
        && one
            .iter()
            .zip(other)
            .all(|(one, other)| is_same(one, other))
}

/// How many answers are not the same in all three.
fn differing(found: &[FindList], filtered: &[FindList], in_memory: &[FindList]) -> usize {
    let mut count = 0usize;
    for ((one, other), third) in found.iter().zip(filtered).zip(in_memory) {
        if !find_the_same(one, other) || !find_the_same(one, third) {
            count = count.saturating_add(1);
        }
    }
    count
}

impl Sites {
    /// A new site, with a top menu.
    pub fn new(alloc: Global) -> Result<Sites, Trouble> {
        let reads = Rc::new(alloc, Cell::new(0))?;
        Ok(Sites {
            alloc,
            disk: Some(on_disk(alloc, reads.clone()?)?),
            memory: in_memory(alloc)?,
            reads,
            now: Stamp::start(),
        })
    }

    /// Puts the site of an image in the place of the one on the disk alone.
    pub fn load(&mut self, image: &[u8]) -> Result<(), Trouble> {
        self.disk = Some(of_image(self.alloc, image, self.reads.clone()?)?);
        Ok(())
    }

    /// Makes a change on the disk.
    fn change_disk(&mut self, change: Change) -> Result<(), Trouble> {
        match &mut self.disk {
            Some(site) => Ok(site.change(change, Stamp::start())?),
            None => Err(Trouble::Wrong("no site")),
        }
    }

    /// Makes a change, which both sites make or both refuse.
    pub fn change(&mut self, change: Change) -> Result<(), Trouble> {
        let done = self.change_disk(change.clone()?);
        let same = match self.memory.change(change, Stamp::start()) {
            Ok(()) => Ok(()),
            Err(fault) => Err(Trouble::Site(fault)),
        };
        if done != same {
            return Err(Trouble::Wrong("a change of one site alone"));
        }
        done
    }

    /// What the site on the disk finds by the keys of words.
    fn found(&mut self, queries: &[Query]) -> Result<Vec<FindList>, Trouble> {
        match &mut self.disk {
            Some(site) => found_in(self.alloc, site, queries),
            None => Err(Trouble::Wrong("no site")),
        }
    }

    /// What is found on the disk by a look at each item. The site is then opened again.
    fn filtered(&mut self, queries: &[Query]) -> Result<Vec<FindList>, Trouble> {
        let Some(site) = self.disk.take() else {
            return Err(Trouble::Wrong("no site"));
        };
        if !site.is_unpinned() {
            return Err(Trouble::Wrong("a pin is out"));
        }
        let mut keeper = site.into_keeper();
        let found = filtered_in(self.alloc, &mut keeper, queries)?;
        self.disk = Some(site_on(self.alloc, device_under(keeper)?)?);
        Ok(found)
    }

    /// What is found for each query, by all three searches.
    pub fn search(&mut self, queries: &[Query]) -> Result<Answers, Trouble> {
        let found = self.found(queries)?;
        let filtered = self.filtered(queries)?;
        let in_memory = found_in(self.alloc, &mut self.memory, queries)?;
        let differ = differing(&found, &filtered, &in_memory);
        Ok(Answers { found, differ })
    }

    /// Searches the disk by the keys of words so often: how many items are found in all, and how many pages are read.
    pub fn pages(&mut self, times: u32, queries: &[Query]) -> Result<(usize, u64), Trouble> {
        let before = self.reads.get();
        let mut count = 0usize;
        for _ in 0..times {
            for found in &self.found(queries)? {
                count = count.saturating_add(found.as_slice().len());
            }
        }
        Ok((count, self.reads.get().saturating_sub(before) / 8))
    }
}
