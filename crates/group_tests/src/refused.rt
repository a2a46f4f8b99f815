// A small group whose calls are made again where they find no memory. What is answered is the same whether memory was refused or not.
ghost use Rattle.std.specs.Prelude.{◌≡◌, [], IfOk, IsTrue};
ghost use Rattle.host_types.specs.Site.{IsSite};

use crate::items::{answer, remove};
use crate::script::Script;
use crate::sites::{TreeSite, in_memory, keeper_under, new_disk, site_on};
use crate::trouble::Trouble;
use group_hub::Hub;
use group_world::{Drawn, Event, Flushed, HubFault, InputStatus};
use host_types::{SiteKeeper, Stamp};
use page_store::Keeper;
use std::alloc::Global;
use word_search::SearchKeeper;

/// How much of a reply is kept, and how many replies.
const ROOM: usize = 160;

const PLACES: usize = 5;

/// The lines of a document that all but fills an image of 16 pages, and those of a post for which there is no room beside it.
const DOCUMENT: u32 = 340;

const MESSAGE: u32 = 60;

/// Two answers to the form, and what two readers ask.
const ANN: &[u8] = b"/sign\t+\t1\r\n+-1\r\nAnn\r\n0\r\n.\r\n";

const BOB: &[u8] = b"/sign\t+\t1\r\n+-1\r\nBob\r\n0\r\n.\r\n";

const BOOK: &[u8] = b"/book\r\n";

const SECOND: &[u8] = b"post//book/2\r\n";

/// What sessions drew, up to the first 0 of each, and the generation of the image: 0 in memory.
#[derive(Drop)]
pub(crate) struct Trial {
    pub texts: [[u8; ROOM]; PLACES],
    pub generation: u64,
}

impl Trial {
    fn new() -> Trial {
        Trial {
            texts: [[0; ROOM]; PLACES],
            generation: 0,
        }
    }
}

/// The bytes before the first 0.
pub fn text_in(bytes: &[u8]) -> &[u8] {
    match bytes.iter().position(|byte| *byte == 0) {
        Some(end) => bytes.get(..end).unwrap_or(bytes),
        None => bytes,
    }
}

/// A hub in which posts wait. Where it finds no memory it hands the site back.
fn grouped<S: SearchKeeper + Drop>(alloc: Global, site: S) -> Result<Hub<S>, Trouble>
    requires unpinned { (S.site_state site).pins ≡ [] }
    requires valid { IsTrue (S.site_state site).honest → ∥ IsSite (S.site_state site).site ∥₁ }
{
    if !site.is_usable() {
        return Err(Trouble::Wrong("a site that isn't usable"));
    }
    let site = match Hub::grouped(alloc, site, 1) {
        Ok(hub) => return Ok(hub),
        Err((_, site)) => site,
    };
    match Hub::grouped(alloc, site, 1) {
        Ok(hub) => Ok(hub),
        Err((fault, _)) => Err(Trouble::Hub(fault)),
    }
}

/// What fills the site.
fn filling(alloc: Global, lines: u32) -> Result<Script, Trouble> {
    let mut script = Script::new(alloc)?;
    script.fill(100, lines)?;
    Ok(script)
}

fn put<S: SearchKeeper>(hub: &mut Hub<S>, event: &Event) -> Result<(), Trouble> {
    match event {
        Event::Admin { change, now } => Ok(hub.admin(change.clone()?, *now)?),
        _ => Err(Trouble::Line),
    }
}

/// Fills the site. A change that found no memory is made again.
fn fill<S: SearchKeeper>(alloc: Global, hub: &mut Hub<S>, lines: u32) -> Result<(), Trouble> {
    let script = match filling(alloc, lines) {
        Ok(script) => script,
        Err(_) => filling(alloc, lines)?,
    };
    for event in script.all() {
        match put(hub, event) {
            Err(Trouble::Memory | Trouble::Hub(HubFault::Memory)) => put(hub, event)?,
            ended => ended?,
        }
    }
    Ok(())
}

/// A session sends a request, which is answered so. Where it found no memory it is sent again.
fn ask<S: SearchKeeper>(
    hub: &mut Hub<S>,
    request: &[u8],
    wanted: InputStatus,
) -> Result<u64, Trouble> {
    let id = hub.join()?;
    let heard = match hub.bytes(id, request, Stamp::start()) {
        Err(HubFault::Memory) => hub.bytes(id, request, Stamp::start())?,
        heard => heard?,
    };
    match heard == wanted {
        true => Ok(id),
        false => Err(Trouble::Wrong("another answer to a request")),
    }
}

fn draw<S: SearchKeeper>(hub: &mut Hub<S>, id: u64, reply: &mut [u8]) -> Result<(), Trouble> {
    match hub.draw(id, reply)? {
        Drawn::Bytes(_) => Ok(()),
        Drawn::Finished => Err(Trouble::Wrong("no reply")),
    }
}

/// A flush. One that found no memory has answered nobody, and is made again.
fn flush<S: SearchKeeper>(hub: &mut Hub<S>, waiting: u64) -> Result<Flushed, Trouble> {
    match hub.flush() {
        Err(HubFault::Memory) => {}
        flushed => return Ok(flushed?),
    }
    if hub.draw(waiting, &mut [0; 1]) != Err(HubFault::NotReady) {
        return Err(Trouble::Wrong("an answer of a flush that found no memory"));
    }
    Ok(hub.flush()?)
}

/// Two post, one reads before the flush, and two behind it.
fn try_over<S: SearchKeeper>(
    alloc: Global,
    hub: &mut Hub<S>,
    trial: &mut Trial,
) -> Result<(), Trouble> {
    fill(alloc, hub, 1)?;
    let one = ask(hub, ANN, InputStatus::Waiting)?;
    let other = ask(hub, BOB, InputStatus::Waiting)?;
    let early = ask(hub, BOOK, InputStatus::Ready)?;
    let Flushed { answered, left } = flush(hub, one)?;
    if answered != 2 || left != 0 {
        return Err(Trouble::Wrong("another flush"));
    }
    let late = ask(hub, BOOK, InputStatus::Ready)?;
    let last = ask(hub, SECOND, InputStatus::Ready)?;
    for (place, id) in [one, other, early, late, last].into_iter().enumerate() {
        draw(hub, id, &mut trial.texts[place])?;
    }
    Ok(())
}

/// The same in memory.
pub fn refused_in_memory(alloc: Global) -> Result<Trial, Trouble> {
    let site = match in_memory(alloc) {
        Ok(site) => site,
        Err(_) => in_memory(alloc)?,
    };
    let mut hub = grouped(alloc, site)?;
    let mut trial = Trial::new();
    let tried = try_over(alloc, &mut hub, &mut trial);
    let _ = hub.close();
    tried?;
    Ok(trial)
}

/// A new site on a disk of so many pages, of which no pin is out.
fn new_site(alloc: Global, pages: u32) -> Result<TreeSite, Trouble>
    ensures unpinned { IfOk result (λ site. (⟦<TreeSite as SiteKeeper>⟧.site_state site).pins ≡ []) }
    ensures valid { IfOk result (λ site. IsTrue (⟦<TreeSite as SiteKeeper>⟧.site_state site).honest → ∥ IsSite (⟦<TreeSite as SiteKeeper>⟧.site_state site).site ∥₁) }
{
    site_on(alloc, new_disk(alloc, pages)?, u64::MAX)
}

/// A hub over a new site on a disk.
fn hub_on(alloc: Global, pages: u32) -> Result<Hub<TreeSite>, Trouble> {
    let site = match new_site(alloc, pages) {
        Ok(site) => site,
        Err(_) => new_site(alloc, pages)?,
    };
    grouped(alloc, site)
}

/// The generation of the image behind a trial. A site whose disk found no memory for a write is opened again.
fn generation_of(alloc: Global, site: TreeSite) -> Result<u64, Trouble> {
    let is_usable = site.is_usable();
    let keeper = keeper_under(site)?;
    if is_usable {
        return Ok(keeper.figures().generation);
    }
    let disk = keeper.into_device().into_inner();
    let again = site_on(alloc, disk, u64::MAX)?.into_keeper();
    Ok(again.figures().generation)
}

/// The same on a new disk.
fn tried_on_disk(alloc: Global) -> Result<Trial, Trouble> {
    let mut hub = hub_on(alloc, 64)?;
    let mut trial = Trial::new();
    let tried = try_over(alloc, &mut hub, &mut trial);
    trial.generation = generation_of(alloc, hub.close())?;
    tried?;
    Ok(trial)
}

/// The same, from the start where the disk found no memory for a write.
pub fn refused_on_disk(alloc: Global) -> Result<Trial, Trouble> {
    match tried_on_disk(alloc) {
        Err(Trouble::Hub(HubFault::Failed)) => tried_on_disk(alloc),
        tried => tried,
    }
}

/// Whether so many were answered, and so many are left.
fn is_told(flushed: Flushed, answered: usize, left: usize) -> bool {
    flushed.answered == answered && flushed.left == left
}

/// The document goes. A change that found no memory is made again.
fn clear(hub: &mut Hub<TreeSite>) -> Result<(), Trouble> {
    match hub.admin(remove(b"/doc")?, Stamp::start()) {
        Err(HubFault::Memory) => Ok(hub.admin(remove(b"/doc")?, Stamp::start())?),
        ended => Ok(ended?),
    }
}

/// The posts of two, in an image that has no room for the second while its document is there. The first is made by the first flush, or where that found no memory by another one.
fn flush_tight(hub: &mut Hub<TreeSite>, one: u64, other: u64) -> Result<(), Trouble> {
    let mut first = flush(hub, one)?;
    if is_told(first, 0, 2) {
        first = flush(hub, one)?;
    }
    clear(hub)?;
    let mut second = flush(hub, other)?;
    if is_told(second, 0, 1) {
        second = flush(hub, other)?;
    }
    match is_told(first, 1, 1) && is_told(second, 1, 0) {
        true => Ok(()),
        false => Err(Trouble::Wrong("another flush")),
    }
}

/// Two post, the second one a long text, in an image that is nearly full, and one reads the board.
fn try_tight(alloc: Global, hub: &mut Hub<TreeSite>, menu: &mut [u8]) -> Result<(), Trouble> {
    fill(alloc, hub, DOCUMENT)?;
    let long = match answer(alloc, "Bob", MESSAGE) {
        Ok(long) => long,
        Err(_) => answer(alloc, "Bob", MESSAGE)?,
    };
    let one = ask(hub, ANN, InputStatus::Waiting)?;
    let other = ask(hub, long.as_bytes(), InputStatus::Waiting)?;
    flush_tight(hub, one, other)?;
    let late = ask(hub, BOOK, InputStatus::Ready)?;
    draw(hub, late, menu)
}

/// That on a new disk.
fn tried_in_tight(alloc: Global) -> Result<Trial, Trouble> {
    let mut hub = hub_on(alloc, 16)?;
    let mut trial = Trial::new();
    let tried = try_tight(alloc, &mut hub, &mut trial.texts[0]);
    trial.generation = generation_of(alloc, hub.close())?;
    tried?;
    Ok(trial)
}

/// The same, from the start where the disk found no memory for a write.
pub fn refused_in_tight(alloc: Global) -> Result<Trial, Trouble> {
    match tried_in_tight(alloc) {
        Err(Trouble::Hub(HubFault::Failed)) => tried_in_tight(alloc),
        tried => tried,
    }
}
