// A site that is written anew while it is pinned.
ghost use Rattle.std.specs.Prelude.{◌≡◌, IsTrue};
ghost use Rattle.host_types.specs.Pins.{is_out};

use crate::changes::{Document, put_text, remove};
use crate::made::{TreeSite, new_disk, site_on};
use crate::trouble::Trouble;
use host_types::{Selector, SiteKeeper, Stamp};
use std::alloc::Global;
use test_help::Dice;

/// The lines of a document of 65,536 bytes, and the pages of an image that has room for it four times.
const LINES: usize = 128;

const PAGES: u32 = 128;

/// More chunks than the document has.
const MOST_CHUNKS: usize = 100;

/// How many bytes were read at the first pin, and how many pages were free before it was spent and after it.
#[derive(Clone, Copy)]
pub(crate) struct Seen {
    pub bytes: usize,
    pub before: u64,
    pub after: u64,
}

/// The document as it was pinned, chunk by chunk.
fn read_pinned<S: SiteKeeper>(alloc: Global, site: &mut S, pin: &S::Pin) -> Result<Vec<u8>, Trouble>
    requires { IsTrue (is_out (S.site_state site.old) (S.pinned pin.now)) }
    ensures { (S.site_state site.new).pins ≡ (S.site_state site.old).pins }
{
    let selector = Selector::new(b"/doc")?;
    let mut bytes = Vec::new(alloc);
    let mut buffer = [0; 1000];
    for chunk in 0..MOST_CHUNKS {
        let count = site.chunk(pin, &selector, 0, chunk, &mut buffer)?;
        if count == 0 {
            return Ok(bytes);
        }
        bytes.extend_from_slice(buffer.get(..count).unwrap_or(&[]))?;
    }
    Err(Trouble::Wrong("a document without an end"))
}

/// Compares the document as it was pinned.
fn expect_pinned<S: SiteKeeper>(
    alloc: Global,
    site: &mut S,
    pin: &S::Pin,
    text: &[u8],
) -> Result<usize, Trouble>
    requires { IsTrue (is_out (S.site_state site.old) (S.pinned pin.now)) }
    ensures { (S.site_state site.new).pins ≡ (S.site_state site.old).pins }
{
    let bytes = read_pinned(alloc, site, pin)?;
    if bytes.as_slice() != text {
        return Err(Trouble::Wrong("another text is read at a pin"));
    }
    Ok(bytes.len())
}

/// The document is removed and the site written anew; then another is put in its place, and the site written anew again. How many pages are free then.
fn compact_twice(
    alloc: Global,
    site: &mut TreeSite,
    pin: &<TreeSite as SiteKeeper>::Pin,
    was: &Document,
    now: &Document,
) -> Result<(usize, u64), Trouble>
    requires { IsTrue (is_out (⟦<TreeSite as SiteKeeper>⟧.site_state site.old) (⟦<TreeSite as SiteKeeper>⟧.pinned pin.now)) }
    ensures { (⟦<TreeSite as SiteKeeper>⟧.site_state site.new).pins ≡ (⟦<TreeSite as SiteKeeper>⟧.site_state site.old).pins }
{
    site.change(remove(b"/doc")?, Stamp::start())?;
    site.compact()?;
    expect_pinned(alloc, site, pin, &was.text)?;
    site.change(put_text(alloc, b"/doc", &now.text)?, Stamp::start())?;
    site.compact()?;
    let bytes = expect_pinned(alloc, site, pin, &was.text)?;
    Ok((bytes, site.figures()?.store.free))
}

/// The site is written anew while the document is pinned; a pin that is made then has the other document.
fn while_pinned(
    alloc: Global,
    site: &mut TreeSite,
    was: &Document,
    now: &Document,
) -> Result<Seen, Trouble> {
    let Ok(pin) = site.pin_site() else {
        return Err(Trouble::Wrong("no pin is made"));
    };
    let compacted = compact_twice(alloc, site, &pin, was, now);
    site.unpin_site(pin);
    let (bytes, before) = compacted?;
    let after = site.figures()?.store.free;
    let Ok(pin) = site.pin_site() else {
        return Err(Trouble::Wrong("no second pin is made"));
    };
    let compared = expect_pinned(alloc, site, &pin, &now.text);
    site.unpin_site(pin);
    compared?;
    Ok(Seen {
        bytes,
        before,
        after,
    })
}

/// The same of a new site with the document.
pub fn compacted(alloc: Global) -> Result<Seen, Trouble> {
    let was = Document::new(alloc, &mut Dice::new(3), LINES)?;
    let now = Document::new(alloc, &mut Dice::new(4), LINES)?;
    let mut site = site_on(alloc, new_disk(alloc, PAGES)?)?;
    site.change(put_text(alloc, b"/doc", &was.text)?, Stamp::start())?;
    while_pinned(alloc, &mut site, &was, &now)
}
