// What a stream says, lent from where its bytes are kept.
ghost use Rattle.std.specs.Prelude.{IsTrue};
ghost use Rattle.host_types.specs.Items.{is_selector};

use crate::{Cause, Data, Names};

/// A view that is asked for by its name.
#[derive(Clone, Copy, Debug)]
pub struct RequestedView<'a> {
    /// At least one byte, as `Text/plain`.
    pub name: &'a [u8],
    /// At least one byte, as `En_US`, where a language is named.
    pub language: Option<&'a [u8]>,
}

/// The Gopher+ part of a request (the Gopher+ paper, section 2).
#[derive(Clone, Copy, Debug)]
pub enum Plus<'a> {
    /// `+`: the item itself, in its first view where none is named.
    Fetch(Option<RequestedView<'a>>),
    /// `!`: the attributes of the item, by the blocks with these names, or by all where there are no names.
    Attributes(Names<'a>),
    /// `$`: the same for each entry of a menu.
    EntryAttributes(Names<'a>),
}

/// A whole request (RFC 1436; RFC 1738, section 3.4; the Gopher+ paper).
#[derive(Clone, Copy, Debug)]
pub struct Request<'a> {
    /// 0 to 255 bytes, so that `host_types::Selector::new` takes them.
    pub selector: &'a [u8],
    /// The search words, where there are some.
    pub search: Option<&'a [u8]>,
    /// The Gopher+ part, where there is one.
    pub plus: Option<Plus<'a>>,
    /// The data that were sent along, which only a fetch has.
    pub data: Option<Data<'a>>,
    pub ghost valid: { IsTrue (is_selector selector.now) },
}

/// What a stream says so far.
#[derive(Clone, Copy, Debug)]
pub enum StreamVerdict<'a> {
    /// More bytes are needed.
    More,
    /// The input ended before the request was whole.
    Early,
    Whole(Request<'a>),
    Bad(Cause),
}
