// What a line of a gophermap says.
use host_types::LinkKind;

/// Where an item lies.
#[derive(Clone, Copy, Debug)]
pub struct ItemPlace<'a> {
    /// The host; none for the one that gives the menu.
    pub host: Option<&'a [u8]>,
    /// The port, from 1 on; none for that of the server that gives the menu.
    pub port: Option<u16>,
}

/// What a line of a gophermap says.
#[derive(Clone, Copy, Debug)]
pub enum Line<'a> {
    /// A line to read, which leads nowhere.
    Info(&'a [u8]),
    /// The title of the menu.
    Title(&'a [u8]),
    /// A link out of gopherspace.
    Link {
        title: &'a [u8],
        url: &'a [u8],
    },
    /// An item.
    Entry {
        kind: LinkKind,
        title: &'a [u8],
        selector: &'a [u8],
        place: ItemPlace<'a>,
    },
    /// A line that no client sees.
    Comment,
    /// The files of the folder are listed here, and nothing behind it is read.
    Listing,
    /// Nothing behind it is read.
    End,
}
