// What the lines of a run share, and which call a word names.
use crate::crashes::{device_under, disk_of, in_memory, keeper_under};
use crate::line::{Line, copy, number};
use crate::lying::{stored_and_told, switched};
use crate::tested::{TestedDisk, disk_under, failing_once, fused, lying, plain};
use crate::trouble::Trouble;
use crate::upgrades::in_version_1;
use crate::{devices, disks, events, keepers, records, sites, texts};
use cow_tree::TreeKeeper;
use group_hub::OutcomeList;
use group_world::{Event, HubFault, Outcome};
use host_on_disk::{open_site, run_on, upgrade_on};
use host_types::{Bytes, Change, Stamp};
use mem_site::MemSite;
use page_store::FlatKeeper;
use sector_device::{MemDisk, SECTOR_SIZE};
use site_store::DiskSite;
use std::alloc::Global;
use std::mem;

fn show_id(line: &mut Line, id: u64) -> Result<(), Trouble> {
    line.word("id")?;
    line.number(id)
}

fn show_drawn(line: &mut Line, bytes: &Bytes) -> Result<(), Trouble> {
    line.word("drawn")?;
    line.bytes(bytes.as_slice())
}

fn show_fault(line: &mut Line, fault: HubFault) -> Result<(), Trouble> {
    let text = format!(in line.alloc; "fault {fault}")?;
    line.word(&text)
}

/// What a hub answers to an event, behind a comma.
fn show_outcome(line: &mut Line, outcome: &Outcome) -> Result<(), Trouble> {
    line.word(",")?;
    match outcome {
        Outcome::Joined(id) => show_id(line, *id),
        Outcome::More => line.word("more"),
        Outcome::Ready => line.word("ready"),
        Outcome::Finished => line.word("finished"),
        Outcome::Waiting => Err(Trouble::Wrong("a post waits in a plain hub")),
        Outcome::Drawn(bytes) => show_drawn(line, bytes),
        Outcome::Gone | Outcome::Done => line.word("ok"),
        Outcome::Flushed { .. } => Err(Trouble::Wrong("a plain hub is flushed")),
        Outcome::Fault(fault) => show_fault(line, *fault),
    }
}

fn show_outcomes(line: &mut Line, outcomes: &OutcomeList) -> Result<(), Trouble> {
    for outcome in outcomes.as_slice() {
        show_outcome(line, outcome)?;
    }
    Ok(())
}

/// What the lines work on.
#[derive(Drop)]
pub(crate) enum Held {
    Nothing,
    Disk(MemDisk),
    Device(TestedDisk),
    Flat(FlatKeeper<TestedDisk>),
    Tree(TreeKeeper<TestedDisk>),
    Site(DiskSite<TreeKeeper<TestedDisk>>),
    Memory(MemSite),
}

impl Held {
    /// The device under it, which fails by no plan where it had none.
    fn into_device(self) -> Result<TestedDisk, Trouble> {
        match self {
            Held::Disk(disk) => Ok(plain(disk)),
            Held::Device(device) => Ok(device),
            Held::Flat(keeper) => Ok(keeper.into_device()),
            Held::Tree(keeper) => device_under(keeper),
            Held::Site(site) => device_under(keeper_under(site)?),
            _ => Err(Trouble::Line),
        }
    }
}

/// What is held, the image that was saved, events, and those that a site is used by.
#[derive(Drop)]
pub(crate) struct Bench {
    pub alloc: Global,
    pub now: Stamp,
    pub held: Held,
    pub image: Vec<[u8; SECTOR_SIZE]>,
    pub events: Vec<Event>,
    pub used: Vec<Event>,
    pub remembered: Vec<Bytes>,
    pub requests: Vec<Bytes>,
    pub changes: Vec<Change>,
}

impl Bench {
    pub fn new(alloc: Global) -> Bench {
        Bench {
            alloc,
            now: Stamp::start(),
            held: Held::Nothing,
            image: Vec::new(alloc),
            events: Vec::new(alloc),
            used: Vec::new(alloc),
            remembered: Vec::new(alloc),
            requests: Vec::new(alloc),
            changes: Vec::new(alloc),
        }
    }

    /// The device under what is held, which is held no more.
    fn take_device(&mut self) -> Result<TestedDisk, Trouble> {
        mem::replace(&mut self.held, Held::Nothing).into_device()
    }

    /// The disk under what is held, which is held no more.
    fn take_disk(&mut self) -> Result<MemDisk, Trouble> {
        Ok(disk_under(self.take_device()?))
    }

    /// `open`: the keeper of the image of flat pages on the device.
    fn open(&mut self) -> Result<(), Trouble> {
        match FlatKeeper::open(self.alloc, self.take_device()?) {
            Ok(keeper) => {
                self.held = Held::Flat(keeper);
                Ok(())
            }
            Err((fault, device)) => {
                self.held = Held::Device(device);
                Err(Trouble::from(fault))
            }
        }
    }

    /// `site`: the site on the device.
    fn open_device(&mut self) -> Result<(), Trouble> {
        match open_site(self.alloc, self.take_device()?) {
            Ok(site) => {
                self.held = Held::Site(site);
                Ok(())
            }
            Err((fault, device)) => {
                self.held = Held::Device(device);
                Err(Trouble::from(fault))
            }
        }
    }

    /// The site of the tree on a device. Where it is none, the tree is held.
    fn open_tree(&mut self, device: TestedDisk) -> Result<(), Trouble> {
        let keeper = match TreeKeeper::open(self.alloc, device) {
            Ok(keeper) => keeper,
            Err((fault, device)) => {
                self.held = Held::Device(device);
                return Err(Trouble::from(fault));
            }
        };
        match DiskSite::open(self.alloc, keeper) {
            Ok(site) => {
                self.held = Held::Site(site);
                Ok(())
            }
            Err((fault, keeper)) => {
                self.held = Held::Tree(keeper);
                Err(Trouble::from(fault))
            }
        }
    }

    /// `turn`: the site of the keeper, which is opened anew, so that no pin of it is out, or the keeper of the site.
    fn turn(&mut self) -> Result<(), Trouble> {
        match mem::replace(&mut self.held, Held::Nothing) {
            Held::Site(site) => {
                self.held = Held::Tree(keeper_under(site)?);
                Ok(())
            }
            Held::Tree(keeper) => self.open_tree(device_under(keeper)?),
            _ => Err(Trouble::Line),
        }
    }

    /// `run FIRST`: the events over the site on the device, with sessions from this number on.
    fn run(&mut self, line: &mut Line, first: &[u8]) -> Result<(), Trouble> {
        let first = number(first)?;
        match run_on(self.alloc, false, self.take_device()?, first, &self.events) {
            Ok((outcomes, device)) => {
                self.held = Held::Device(device);
                show_outcomes(line, &outcomes)
            }
            Err((fault, device)) => {
                self.held = Held::Device(device);
                Err(Trouble::from(fault))
            }
        }
    }

    /// `save`: keeps the image of the disk. `same`: it is the image that was kept.
    fn save(&mut self, is_same: bool) -> Result<(), Trouble> {
        let disk = self.take_disk()?;
        let image = disk.after_stop(self.alloc, &[])?;
        if is_same && image != self.image {
            return Err(Trouble::Wrong("another image"));
        }
        self.image = image;
        self.held = Held::Disk(disk);
        Ok(())
    }

    /// `close`: the disk under what is held.
    fn close(&mut self) -> Result<(), Trouble> {
        self.held = Held::Disk(self.take_disk()?);
        Ok(())
    }

    /// `again`: a disk with the image.
    fn again(&mut self) -> Result<(), Trouble> {
        self.held = Held::Disk(disk_of(self.alloc, &self.image)?);
        Ok(())
    }

    /// `first`: a disk with the site of the image in version 1.
    fn hold_first(&mut self) -> Result<(), Trouble> {
        let pages = u32::try_from(self.image.len() / 8).or(Err(Trouble::Line))?;
        let first = in_version_1(self.alloc, &self.image, pages)?;
        self.held = Held::Disk(MemDisk::of(self.alloc, first)?);
        Ok(())
    }

    /// `upgrade`: the image on the device is written in version 2, and so many records are told.
    fn upgrade(&mut self, line: &mut Line) -> Result<(), Trouble> {
        match upgrade_on(self.alloc, self.take_device()?) {
            Ok((count, device)) => {
                self.held = Held::Device(device);
                line.number(count)
            }
            Err((fault, device)) => {
                self.held = Held::Device(device);
                Err(Trouble::from(fault))
            }
        }
    }

    /// `memory`: a site in memory.
    fn hold_memory(&mut self) -> Result<(), Trouble> {
        self.held = Held::Memory(in_memory(self.alloc)?);
        Ok(())
    }

    /// `now SECONDS`
    fn set_now(&mut self, seconds: &[u8]) -> Result<(), Trouble> {
        self.now = Stamp::new(number(seconds)?)?;
        Ok(())
    }

    /// `disk SECTORS`
    fn hold_disk(&mut self, sectors: &[u8]) -> Result<(), Trouble> {
        let disk = MemDisk::new(self.alloc, number(sectors)? as usize)?;
        self.held = Held::Disk(disk);
        Ok(())
    }

    /// `fuse CALLS`
    fn hold_fuse(&mut self, calls: &[u8]) -> Result<(), Trouble> {
        let calls = number(calls)?;
        self.held = Held::Device(fused(self.take_disk()?, calls));
        Ok(())
    }

    /// `once CALL`
    fn hold_once(&mut self, call: &[u8]) -> Result<(), Trouble> {
        let call = number(call)?;
        self.held = Held::Device(failing_once(self.take_disk()?, call));
        Ok(())
    }

    /// `lie CALLS SECTOR BYTES`, with zeros behind the bytes.
    fn hold_lie(&mut self, calls: &[u8], n: &[u8], bytes: &[u8]) -> Result<(), Trouble> {
        let (calls, n) = (number(calls)?, number(n)?);
        let mut told = [0; SECTOR_SIZE];
        copy(&mut told, bytes);
        self.held = Held::Device(lying(self.take_disk()?, calls, n, told));
        Ok(())
    }

    /// `crash WRITE ..`
    fn crash(&mut self, picks: &[Vec<u8>]) -> Result<(), Trouble> {
        let left = disks::left_of(self.alloc, &self.take_disk()?, picks)?;
        self.held = Held::Disk(MemDisk::of(self.alloc, left)?);
        Ok(())
    }
}

/// The words that take no field and hold something else.
fn of_held(bench: &mut Bench, line: &mut Line, word: &str) -> Result<(), Trouble> {
    match word {
        "open" => bench.open(),
        "site" => bench.open_device(),
        "turn" => bench.turn(),
        "close" => bench.close(),
        "again" => bench.again(),
        "memory" => bench.hold_memory(),
        "first" => bench.hold_first(),
        "upgrade" => bench.upgrade(line),
        "save" => bench.save(false),
        "same" => bench.save(true),
        _ => events::call(bench, line, word, &[]),
    }
}

/// `stored_and_told`
fn show_stored(alloc: Global, line: &mut Line) -> Result<(), Trouble> {
    for sector in stored_and_told(alloc)? {
        line.bytes(&sector)?;
    }
    Ok(())
}

/// `switched`
fn show_switched(alloc: Global, line: &mut Line) -> Result<(), Trouble> {
    for page in switched(alloc)? {
        line.bytes(&page)?;
    }
    Ok(())
}

/// The words that need nothing held, and then all others.
pub fn of_none(
    bench: &mut Bench,
    line: &mut Line,
    word: &str,
    fields: &[Vec<u8>],
) -> Result<(), Trouble> {
    match (word, fields) {
        ("pair", [key, value]) => keepers::show_pair(bench.alloc, line, key, value),
        ("stored_and_told", []) => show_stored(bench.alloc, line),
        ("switched", []) => show_switched(bench.alloc, line),
        ("keeper_faults" | "device_faults" | "laws", []) => texts::call(bench.alloc, line, word),
        _ => records::call(bench, line, word, fields),
    }
}

/// The words of a device around a disk.
fn on_device(
    device: &mut TestedDisk,
    line: &mut Line,
    word: &str,
    fields: &[Vec<u8>],
) -> Result<(), Trouble> {
    if word != "refused" {
        return devices::call(device, line, word, fields);
    }
    line.number(device.refused_reads())?;
    line.number(device.refused_writes())
}

/// The words of a site on a disk.
fn on_site(
    alloc: Global,
    site: &mut DiskSite<TreeKeeper<TestedDisk>>,
    line: &mut Line,
    now: Stamp,
    word: &str,
    fields: &[Vec<u8>],
) -> Result<(), Trouble> {
    match word {
        "next" => sites::next(site, line, fields),
        "figures" => sites::figures(site, line),
        "compact" => sites::compact(site),
        _ => sites::call(alloc, site, line, now, word, fields),
    }
}

/// The words of what is held.
pub fn on_held(
    bench: &mut Bench,
    line: &mut Line,
    word: &str,
    fields: &[Vec<u8>],
) -> Result<(), Trouble> {
    let (alloc, now) = (bench.alloc, bench.now);
    match &mut bench.held {
        Held::Disk(disk) => disks::call(alloc, disk, line, word, fields),
        Held::Device(device) => on_device(device, line, word, fields),
        Held::Flat(keeper) => keepers::call(alloc, keeper, line, word, fields),
        Held::Tree(keeper) => keepers::call(alloc, keeper, line, word, fields),
        Held::Site(site) => on_site(alloc, site, line, now, word, fields),
        Held::Memory(site) => sites::call(alloc, site, line, now, word, fields),
        Held::Nothing => Err(Trouble::Line),
    }
}

/// Makes the call that a word names.
pub fn call(
    bench: &mut Bench,
    line: &mut Line,
    word: &str,
    fields: &[Vec<u8>],
) -> Result<(), Trouble> {
    match (word, fields) {
        ("crash", picks) => bench.crash(picks),
        ("now", [seconds]) => bench.set_now(seconds),
        ("disk", [sectors]) => bench.hold_disk(sectors),
        ("fuse", [calls]) => bench.hold_fuse(calls),
        ("once", [call]) => bench.hold_once(call),
        ("lie", [calls, n, bytes]) => bench.hold_lie(calls, n, bytes),
        ("run", [first]) => bench.run(line, first),
        (_, []) => of_held(bench, line, word),
        _ => events::call(bench, line, word, fields),
    }
}
