// Sessions over the same site on a disk and in memory, whose events are mixed at random.
use crate::changes::{Document, put_board, put_form, put_text, remove};
use crate::made::{TreeSite, disk_under, hub_over, in_memory, new_disk, site_on};
use crate::trouble::Trouble;
use group_hub::{Hub, MOST_SESSIONS};
use group_world::HubFault;
use host_types::{Change, SiteFault, SiteKeeper, Stamp};
use mem_site::MemSite;
use sector_device::MemDisk;
use std::alloc::Global;
use test_help::Dice;

/// Where documents stand.
const PLACES: [&[u8]; 6] = [b"/a", b"/b", b"/c", b"/d", b"/e", b"/f"];

/// What sessions ask, whole or in parts: documents, each as a text and by Gopher+, what is not there, the board, and a post.
const REQUESTS: [&[u8]; 16] = [
    b"/a\r\n",
    b"/b\r\n",
    b"/c\r\n",
    b"/d\r\n",
    b"/e\r\n",
    b"/f\r\n",
    b"/a\t+\r\n",
    b"/b\t+\r\n",
    b"/c\t+\r\n",
    b"/d\t!\r\n",
    b"/none\r\n",
    b"/book\r\n",
    b"/a",
    b"\r\n",
    b"/sign\t+\t1\r\n+-1\r\nAnn\r\n0\r\n.\r\n",
    b"/sign\t+\t1\r\n+-1\r\nBea\r\n1\r\nHello\r\n.\r\n",
];

/// The pages of an image, the lines that a document is cut from, the room of a draw at most, and the events of a hub behind the first joins.
const PAGES: u32 = 64;

const LINES: usize = 20;

const ROOM: usize = 2048;

const EVENTS: usize = 60;

/// What was seen: events, those that the image had no room for, those that were answered otherwise in memory, and how often the site on the disk was compacted.
#[derive(Clone, Copy)]
pub(crate) struct Seen {
    pub events: usize,
    pub full: usize,
    pub differ: usize,
    pub compacted: usize,
}

impl Seen {
    fn none() -> Seen {
        Seen {
            events: 0,
            full: 0,
            differ: 0,
            compacted: 0,
        }
    }

    /// An event that both hubs answered.
    fn answered(&mut self, is_same: bool) {
        self.events = self.events.saturating_add(1);
        if !is_same {
            self.differ = self.differ.saturating_add(1);
        }
    }
}

/// Whether an answer says that the image has no room.
fn is_full<T>(answer: &Result<T, HubFault>) -> bool {
    matches!(answer, Err(HubFault::Full { .. } | HubFault::Deep))
}

/// The same site on a disk and in memory.
#[derive(Drop)]
struct Site {
    disk: MemDisk,
    memory: MemSite,
}

/// Hubs over the same site.
struct Hubs {
    disk: Hub<TreeSite>,
    memory: Hub<MemSite>,
}

/// How the events of hubs are made, and what was seen.
#[derive(Drop)]
struct Run {
    alloc: Global,
    dice: Dice,
    joined: usize,
    seen: Seen,
}

impl Run {
    fn join(&mut self, hubs: &mut Hubs) {
        let on_disk = hubs.disk.join();
        if on_disk.is_ok() {
            self.joined = self.joined.saturating_add(1);
        }
        self.seen.answered(on_disk == hubs.memory.join());
    }

    /// A session that joined, and may have left.
    fn session(&mut self) -> u64 {
        let sides = self.joined.max(1);
        (self.dice.roll(sides) as u64).saturating_add(1)
    }

    /// A request, which isn't made in memory where the image has no room for it.
    fn ask(&mut self, hubs: &mut Hubs) {
        let id = self.session();
        let request = REQUESTS[self.dice.roll(REQUESTS.len())];
        let on_disk = hubs.disk.bytes(id, request, Stamp::start());
        if is_full(&on_disk) {
            self.seen.full = self.seen.full.saturating_add(1);
            return;
        }
        let is_same = on_disk == hubs.memory.bytes(id, request, Stamp::start());
        self.seen.answered(is_same);
    }

    /// Draws of random room: what stands behind what is drawn is compared too.
    fn draw(&mut self, hubs: &mut Hubs) {
        let id = self.session();
        let room = self.dice.roll(ROOM);
        let (mut one, mut other) = ([0; ROOM], [0; ROOM]);
        let on_disk = hubs.disk.draw(id, &mut one[..room]);
        let in_memory = hubs.memory.draw(id, &mut other[..room]);
        self.seen.answered(on_disk == in_memory && one == other);
    }

    fn leave(&mut self, hubs: &mut Hubs) {
        let id = self.session();
        let is_same = hubs.disk.leave(id) == hubs.memory.leave(id);
        self.seen.answered(is_same);
    }

    /// A document is put or removed.
    fn any_change(&mut self) -> Result<Change, Trouble> {
        let place = PLACES[self.dice.roll(PLACES.len())];
        if self.dice.roll(4) == 0 {
            return remove(place);
        }
        let mut text = Document::new(self.alloc, &mut self.dice, LINES)?.text;
        let length = text.len().max(1);
        text.truncate(self.dice.roll(length));
        put_text(self.alloc, place, &text)
    }

    /// A change of the administrator, which isn't made in memory where the image has no room for it.
    fn change(&mut self, hubs: &mut Hubs, change: Change) -> Result<(), Trouble> {
        let on_disk = hubs.disk.admin(change.clone()?, Stamp::start());
        if is_full(&on_disk) {
            self.seen.full = self.seen.full.saturating_add(1);
            return Ok(());
        }
        let is_same = on_disk == hubs.memory.admin(change, Stamp::start());
        self.seen.answered(is_same);
        Ok(())
    }

    fn event(&mut self, hubs: &mut Hubs) -> Result<(), Trouble> {
        match self.dice.roll(20) {
            0 | 1 => self.join(hubs),
            2 | 3 => self.leave(hubs),
            4 | 5 => {
                let change = self.any_change()?;
                self.change(hubs, change)?;
            }
            6..=11 => self.ask(hubs),
            _ => self.draw(hubs),
        }
        Ok(())
    }

    /// All events of two hubs, of which as many sessions as there may be join first.
    fn events(&mut self, hubs: &mut Hubs) -> Result<(), Trouble> {
        self.joined = 0;
        for _ in 0..MOST_SESSIONS {
            self.join(hubs);
        }
        for _ in 0..EVENTS {
            self.event(hubs)?;
        }
        Ok(())
    }

    /// The site on the disk is compacted, where the image has room for that.
    fn compact(&mut self, disk: &mut TreeSite) -> Result<(), Trouble> {
        match disk.compact() {
            Ok(()) => self.seen.compacted = self.seen.compacted.saturating_add(1),
            Err(SiteFault::Full { .. }) => {}
            Err(fault) => return Err(Trouble::from(fault)),
        }
        Ok(())
    }

    /// Events of new hubs over a site, which is then compacted and handed back.
    fn interleave(&mut self, site: Site) -> Result<Site, Trouble> {
        let mut hubs = hubs_over(self.alloc, site)?;
        let ended = self.events(&mut hubs);
        let Hubs { disk, memory } = hubs;
        let mut disk = disk.close();
        let compacted = self.compact(&mut disk);
        let disk = disk_under(disk);
        let memory = memory.close();
        ended?;
        compacted?;
        Ok(Site {
            disk: disk?,
            memory,
        })
    }
}

/// Hubs over the site that was opened on the disk, and over that in memory.
fn hubs_over(alloc: Global, site: Site) -> Result<Hubs, Trouble> {
    let Site { disk, memory } = site;
    let disk = hub_over(alloc, site_on(alloc, disk)?)?;
    match hub_over(alloc, memory) {
        Ok(memory) => Ok(Hubs { disk, memory }),
        Err(trouble) => {
            let _ = disk.close();
            Err(trouble)
        }
    }
}

/// A new site with the board and the form.
fn new_site(alloc: Global) -> Result<Site, Trouble> {
    let mut disk = site_on(alloc, new_disk(alloc, PAGES)?)?;
    let mut memory = in_memory(alloc)?;
    for change in [put_board(alloc)?, put_form(alloc)?] {
        disk.change(change.clone()?, Stamp::start())?;
        memory.change(change, Stamp::start())?;
    }
    let disk = disk_under(disk)?;
    Ok(Site { disk, memory })
}

/// What is seen of so many sites, each of which has so many hubs, one after the other.
pub fn random(alloc: Global, seed: u64, sites: u32, hubs: u32) -> Result<Seen, Trouble> {
    let mut run = Run {
        alloc,
        dice: Dice::new(seed),
        joined: 0,
        seen: Seen::none(),
    };
    for _ in 0..sites {
        let mut site = new_site(alloc)?;
        for _ in 0..hubs {
            site = run.interleave(site)?;
        }
    }
    Ok(run.seen)
}
