// Root slots.
ghost use Rattle.std.specs.Prelude.{◌≡◌, ◌≤◌};
ghost use Rattle.page_store.specs.Flat.{half_size};

use crate::Banner;

/// What a commit writes of itself.
#[derive(Debug, Drop)]
pub struct Root {
    /// How many pages the image has, 16 to 65,536.
    pub pages: u32,
    /// The page under which the pairs stand: the first of a half, or the root of a tree.
    pub tree: u32,
    /// How many levels the tree has; 0 of flat pages.
    pub height: u16,
    /// How many pairs there are.
    pub keys: u64,
    /// Version, host, port and administrator.
    pub banner: Banner,
}

impl Root {
    /// How many pages each half of an image of flat pages has.
    pub(crate) fn half_size(&self) -> u32
        requires { 2 ≤ self.now.pages }
        ensures { result ≡ half_size self.now.pages }
    {
        (self.pages - 2) / 2
    }
}

/// A valid root slot.
#[derive(Debug, Drop)]
pub struct Slot {
    /// 0 or 1.
    pub number: u32,
    /// The generation that stands in each of its sectors.
    pub seal: u64,
    /// Its record.
    pub root: Root,
}
