// A document that is removed while it is drawn, in the least image in which it can be put.
use crate::changes::{Document, put_board, put_form, put_text, remove};
use crate::drawing::{ask, draw};
use crate::made::{TreeSite, hub_over, new_disk, site_on};
use crate::trouble::Trouble;
use group_hub::Hub;
use group_world::{HubFault, InputStatus};
use host_types::Stamp;
use std::alloc::Global;
use test_help::Dice;

/// The document of 65,536 bytes, which is half drawn in 512 draws of 64 bytes.
const LINES: usize = 128;

const ROOM: usize = 64;

const HALF: usize = 512;

/// More posts than the board takes.
const MOST_POSTS: usize = 200;

/// An answer to the form: a name, and no lines of a message.
const POST: &[u8] = b"/sign\t+\t1\r\n+-1\r\nAnn\r\n0\r\n.\r\n";

/// All of it but its last line, and that.
const FRONT: &[u8] = b"/sign\t+\t1\r\n+-1\r\nAnn\r\n0\r\n";

const LAST: &[u8] = b".\r\n";

/// What is sent of the post.
const STORED: &[u8] = b"Your name: Ann\r\nMessage:\r\n.\r\n";

/// How many pages the least image has, and how many posts were stored until it was full.
#[derive(Clone, Copy)]
pub(crate) struct Seen {
    pub pages: u32,
    pub posts: usize,
}

/// Two sessions for whose posts there is no room: one was refused its whole request, the other has sent all but the last line. So many posts before them are stored.
#[derive(Drop)]
struct Refused {
    whole: u64,
    cut: u64,
    posts: usize,
    fault: HubFault,
}

impl Refused {
    /// The number of the next post.
    fn next(&self) -> usize {
        self.posts.saturating_add(1)
    }
}

/// A session sends the last bytes of its post, which is stored with this number; or what is answered where there is no room.
fn post(
    alloc: Global,
    hub: &mut Hub<TreeSite>,
    id: u64,
    piece: &[u8],
    number: usize,
) -> Result<Option<HubFault>, Trouble> {
    match hub.bytes(id, piece, Stamp::start()) {
        Ok(InputStatus::Ready) => {}
        Ok(_) => return Err(Trouble::Wrong("a post that isn't whole")),
        Err(HubFault::Full { need, free }) => return Ok(Some(HubFault::Full { need, free })),
        Err(fault) => return Err(Trouble::Hub(fault)),
    }
    let menu = format!(in alloc; "+-1\r\n0Ann\tpost//book/{number}\tlocalhost\t7070\t+\r\n.\r\n")?;
    if draw(alloc, hub, id, ROOM, 2)?.as_slice() != menu.as_bytes() {
        return Err(Trouble::Wrong("another reply to a post"));
    }
    hub.leave(id)?;
    Ok(None)
}

/// Each sends again what there is no room for, and is refused as the first one was.
fn refuse_both(alloc: Global, hub: &mut Hub<TreeSite>, refused: &Refused) -> Result<(), Trouble> {
    for (id, piece) in [(refused.whole, POST), (refused.cut, LAST)] {
        match post(alloc, hub, id, piece, refused.next())? {
            Some(fault) if fault == refused.fault => {}
            Some(_) => return Err(Trouble::Wrong("the same call is refused otherwise")),
            None => return Err(Trouble::Wrong("room for a post before all pins are given back")),
        }
    }
    Ok(())
}

/// Each makes the same call once more, and both posts are stored.
fn store_both(alloc: Global, hub: &mut Hub<TreeSite>, refused: &Refused) -> Result<(), Trouble> {
    let first = refused.next();
    let second = first.saturating_add(1);
    if post(alloc, hub, refused.whole, POST, first)?.is_some()
        || post(alloc, hub, refused.cut, LAST, second)?.is_some()
    {
        return Err(Trouble::Wrong("no room for a post after the last pin"));
    }
    read_post(alloc, hub, first)?;
    read_post(alloc, hub, second)
}

/// Another session asks for a post.
fn read_post(alloc: Global, hub: &mut Hub<TreeSite>, number: usize) -> Result<(), Trouble> {
    let request = format!(in alloc; "post//book/{number}\r\n")?;
    let id = ask(hub, request.as_bytes())?;
    let drawn = draw(alloc, hub, id, ROOM, 2)?;
    hub.leave(id)?;
    match drawn.as_slice() == STORED {
        true => Ok(()),
        false => Err(Trouble::Wrong("another post is stored")),
    }
}

/// Posts are stored until the image is full and a session is refused its request. Another then sends all of its own but the last line.
fn posts_until_full(alloc: Global, hub: &mut Hub<TreeSite>) -> Result<Refused, Trouble> {
    for posts in 0..MOST_POSTS {
        let whole = hub.join()?;
        if let Some(fault) = post(alloc, hub, whole, POST, posts.saturating_add(1))? {
            let cut = hub.join()?;
            return match hub.bytes(cut, FRONT, Stamp::start())? {
                InputStatus::More => Ok(Refused {
                    whole,
                    cut,
                    posts,
                    fault,
                }),
                _ => Err(Trouble::Wrong("a post that is whole before its last line")),
            };
        }
    }
    Err(Trouble::Wrong("an image that is never full"))
}

/// Puts the document, the board and the form.
fn fill(alloc: Global, hub: &mut Hub<TreeSite>, document: &Document) -> Result<(), Trouble> {
    hub.admin(put_text(alloc, b"/doc", &document.text)?, Stamp::start())?;
    hub.admin(put_board(alloc)?, Stamp::start())?;
    Ok(hub.admin(put_form(alloc)?, Stamp::start())?)
}

/// The first half that a session draws of the document.
fn first_half(alloc: Global, hub: &mut Hub<TreeSite>) -> Result<(u64, Vec<u8>), Trouble> {
    let id = ask(hub, b"/doc\r\n")?;
    Ok((id, draw(alloc, hub, id, ROOM, HALF)?))
}

/// Draws the other half, of a document that is gone, from an image that is full.
fn other_half(
    alloc: Global,
    hub: &mut Hub<TreeSite>,
    (id, half): (u64, Vec<u8>),
    document: &Document,
) -> Result<(), Trouble> {
    let mut drawn = half;
    drawn.extend_from_slice(&draw(alloc, hub, id, ROOM, 2 * HALF)?)?;
    match drawn.as_slice() == document.sent.as_slice() {
        true => Ok(()),
        false => Err(Trouble::Wrong("another text is drawn")),
    }
}

/// Two sessions draw half of the document, and it is removed. How many posts fill the image; then the first session draws the other half, and the second one
/// leaves, which makes room for the posts that were refused.
fn on_hub(alloc: Global, hub: &mut Hub<TreeSite>, document: &Document) -> Result<usize, Trouble> {
    fill(alloc, hub, document)?;
    let first = first_half(alloc, hub)?;
    let (second, _) = first_half(alloc, hub)?;
    hub.admin(remove(b"/doc")?, Stamp::start())?;
    let refused = posts_until_full(alloc, hub)?;
    refuse_both(alloc, hub, &refused)?;
    other_half(alloc, hub, first, document)?;
    refuse_both(alloc, hub, &refused)?;
    hub.leave(second)?;
    store_both(alloc, hub, &refused)?;
    Ok(refused.posts)
}

/// The same in an image of so many pages.
fn in_image(alloc: Global, pages: u32, document: &Document) -> Result<usize, Trouble> {
    let mut hub = hub_over(alloc, site_on(alloc, new_disk(alloc, pages)?)?)?;
    let posts = on_hub(alloc, &mut hub, document);
    let _ = hub.close();
    posts
}

/// How many pages the least image has in which the document can be put, half drawn and removed.
fn least_pages(alloc: Global, document: &Document) -> Result<u32, Trouble> {
    for pages in 16..512 {
        match in_image(alloc, pages, document) {
            Err(Trouble::Hub(HubFault::Full { .. })) => {}
            Err(trouble) => return Err(trouble),
            Ok(_) => return Ok(pages),
        }
    }
    Err(Trouble::Wrong("no image is large enough"))
}

/// The same in an image of so many pages more than the least one.
pub fn above_least(alloc: Global, more: u32) -> Result<Seen, Trouble> {
    let document = Document::new(alloc, &mut Dice::new(1), LINES)?;
    let pages = least_pages(alloc, &document)?.saturating_add(more);
    let posts = in_image(alloc, pages, &document)?;
    Ok(Seen { pages, posts })
}

/// The document in an image of 64 pages, drawn at once and in pieces of one byte: how many bytes are sent.
fn by_bytes(alloc: Global, hub: &mut Hub<TreeSite>, document: &Document) -> Result<usize, Trouble> {
    hub.admin(put_text(alloc, b"/doc", &document.text)?, Stamp::start())?;
    let (at_once, by_bytes) = (ask(hub, b"/doc\r\n")?, ask(hub, b"/doc\r\n")?);
    let whole = draw(alloc, hub, at_once, 100_000, 2)?;
    let pieces = draw(alloc, hub, by_bytes, 1, 100_000)?;
    if whole != document.sent || pieces != document.sent {
        return Err(Trouble::Wrong("another text is drawn"));
    }
    Ok(pieces.len())
}

/// The same over a new image.
pub fn drawn_by_bytes(alloc: Global) -> Result<usize, Trouble> {
    let document = Document::new(alloc, &mut Dice::new(2), LINES)?;
    let mut hub = hub_over(alloc, site_on(alloc, new_disk(alloc, 64)?)?)?;
    let count = by_bytes(alloc, &mut hub, &document);
    let _ = hub.close();
    count
}
