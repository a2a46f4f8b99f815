// A session and where it is.
ghost use Rattle.std.specs.Prelude.{◌≡◌, ◌≤◌, true, false, length};
ghost use Rattle.request_reader.specs.Verdict.{is_open};
ghost use Rattle.request_reader.specs.ReceivedInput.{verdict_by};
ghost use Rattle.group_hub.specs.Understood.{is_whole};

use host_types::{Bytes, Stamp};
use request_reader::Reader;
use view_draws::ViewDraw;

/// A request that isn't whole yet.
#[derive(Drop)]
pub struct Hearing {
    pub reader: Reader,
    ghost open: { is_open (verdict_by reader.input) ≡ true },
    ghost adds_both: { reader.input.ended ≡ false },
}

/// A request that is whole, and whose post waits since a moment.
#[derive(Drop)]
pub struct Waiting {
    pub reader: Reader,
    pub now: Stamp,
    ghost whole: { is_whole (verdict_by reader.input) ≡ true },
}

/// A reply, of which some is drawn.
#[derive(Drop)]
pub struct Replying {
    pub bytes: Bytes,
    pub drawn: usize,
    ghost within: { drawn ≤ length bytes },
}

/// A view of a document as it stood, of which some is drawn. Its pin is given back once all is drawn.
pub struct Drawing<P> {
    pub pin: P,
    pub view: ViewDraw,
}

/// Where a session is. One that holds a pin can't be dropped.
pub enum Phase<P> {
    Hearing(Hearing),
    Waiting(Waiting),
    Replying(Replying),
    Drawing(Drawing<P>),
    /// A view of which all is drawn.
    Drawn,
    /// The input ended before a whole request.
    Early,
}

/// A session and its number.
pub struct Session<P> {
    pub id: u64,
    pub phase: Phase<P>,
}
