// The site of the tests: a text, a board and a form for it, a search, and a top menu.
ghost use Rattle.std.specs.Prelude.{◌≡◌, [], IfOk, IsTrue};
ghost use Rattle.host_types.specs.Site.{IsSite};

use group_hub::Hub;
use host_types::{
    Admin, Body, Bytes, Change, Entry, EntryList, Host, Item, Question, QuestionList, Refused,
    Selector, SiteFault, SiteKeeper, Stamp, Title,
};
use mem_site::MemSite;
use std::alloc::{AllocError, AllocFailed, Global};
use word_search::SearchKeeper;

/// A test could not be made ready.
#[derive(Clone, Copy, Debug, PartialEq, Eq)]
pub(crate) struct NotReady;

impl From<AllocError> for NotReady {
    fn from(_: AllocError) -> Self {
        NotReady
    }
}

impl<T: Drop> From<AllocFailed<T>> for NotReady {
    fn from(_: AllocFailed<T>) -> Self {
        NotReady
    }
}

impl From<Refused> for NotReady {
    fn from(_: Refused) -> Self {
        NotReady
    }
}

impl From<SiteFault> for NotReady {
    fn from(_: SiteFault) -> Self {
        NotReady
    }
}

/// A change that puts an item.
pub fn put(alloc: Global, selector: &[u8], title: &[u8], body: Body) -> Result<Change, NotReady> {
    let item = Item {
        title: Title::new(title)?,
        stamp: Stamp::start(),
        until: None,
        summary: Bytes::new(alloc),
        body,
    };
    Ok(Change::Put(Selector::new(selector)?, item))
}

fn text(alloc: Global) -> Result<Body, NotReady> {
    let bytes = Bytes::from_slice(alloc, b"Hello\n.dot\nlast")?;
    Ok(Item::text(alloc, Title::new(b"")?, Stamp::start(), bytes)?.body)
}

fn form(alloc: Global) -> Result<Body, NotReady> {
    let mut questions = QuestionList::new(alloc);
    questions.push(Question::Ask(Title::new(b"Your name")?))?;
    questions.push(Question::AskL(Title::new(b"Message")?))?;
    Ok(Body::Form {
        board: Selector::new(b"/book")?,
        questions,
    })
}

fn menu(alloc: Global) -> Result<Body, NotReady> {
    let mut entries = EntryList::new(alloc);
    entries.push(Entry::Local(Selector::new(b"/about")?))?;
    entries.push(Entry::Info(Title::new(b"Welcome")?))?;
    Ok(Body::Menu(entries))
}

/// A search of the whole site.
fn search() -> Result<Body, NotReady> {
    let scope = Selector::new(b"")?;
    Ok(Body::Search { scope })
}

/// What is put into a site.
const CHANGES: usize = 5;

/// One of the changes by its place: `/about`, the board `/book`, the form `/sign` for it, the search `/find`, and the top menu.
fn change(alloc: Global, place: usize) -> Result<Change, NotReady> {
    match place {
        0 => put(alloc, b"/about", b"About us", text(alloc)?),
        1 => put(alloc, b"/book", b"Book", Body::Board { cap: 100, next: 1 }),
        2 => put(alloc, b"/sign", b"Sign", form(alloc)?),
        3 => put(alloc, b"/find", b"Find", search()?),
        _ => put(alloc, b"", b"Top", menu(alloc)?),
    }
}

/// A site in memory whose top menu has no entries.
fn empty_site(alloc: Global) -> Result<MemSite, NotReady>
    ensures { IfOk result IsSite }
{
    Ok(MemSite::new(
        alloc,
        Host::new(b"localhost")?,
        7070,
        Admin::new(b"Ada <ada@localhost>")?,
        Title::new(b"Top")?,
        Stamp::start(),
    )?)
}

/// Puts all of it into the site of a hub.
fn fill<S: SearchKeeper>(alloc: Global, hub: &mut Hub<S>) -> Result<(), NotReady> {
    for place in 0..CHANGES {
        if hub.admin(change(alloc, place)?, Stamp::start()).is_err() {
            return Err(NotReady);
        }
    }
    Ok(())
}

/// A hub over a site that gets all of it, in which posts wait or don't. No pin of the site is out.
pub fn filled_hub<S: SearchKeeper + Drop>(
    alloc: Global,
    site: S,
    is_grouped: bool,
) -> Result<Hub<S>, NotReady>
    requires unpinned { (S.site_state site).pins ≡ [] }
    requires valid { IsTrue (S.site_state site).honest → ∥ IsSite (S.site_state site).site ∥₁ }
{
    if !site.is_usable() {
        return Err(NotReady);
    }
    let Ok(mut hub) = Hub::started(alloc, is_grouped, site, 1) else {
        return Err(NotReady);
    };
    match fill(alloc, &mut hub) {
        Ok(()) => Ok(hub),
        Err(fault) => {
            let _ = hub.close();
            Err(fault)
        }
    }
}

/// Such a hub over a site in memory.
pub fn memory_hub(alloc: Global, is_grouped: bool) -> Result<Hub<MemSite>, NotReady> {
    filled_hub(alloc, empty_site(alloc)?, is_grouped)
}
