// An image of some pairs in filled pages, before it is written.
ghost use Rattle.std.specs.Prelude.{◌≤◌, ◌<◌, ◌+◌, All, length};
ghost use Rattle.page_store.specs.Sizes.{most_pages};

use page_store::{NewPage, Slot};
use sector_device::PAGE_SIZE;

/// An image of some pairs in filled pages, before it is written: the pages of its tree, and the root slot over them with the bytes of its page.
#[derive(Drop)]
pub struct FilledImage {
    pub(crate) pages: Vec<NewPage>,
    pub(crate) slot: Slot,
    pub(crate) root: [u8; PAGE_SIZE],
    ghost inside: { All (λ page. (2 ≤ page.number) × (page.number < slot.root.pages)) pages.items },
    ghost least: { 16 ≤ slot.root.pages },
    ghost most: { slot.root.pages ≤ most_pages },
    ghost few: { length pages.items + 2 ≤ slot.root.pages },
}
