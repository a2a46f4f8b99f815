// Bytes that are to be sent.
ghost use Rattle.std.specs.Prelude.{◌≡◌, ◌≤◌, ◌<◌, ◌==◌, ◌+◌, ◌*◌, ℕ, List, [], false, length, take, drop, vec_len, IfOk};
ghost use Rattle.arrayvec.specs.ArrayVec.{ArrayVec as Items};
ghost use Rattle.group_hub.specs.Calls.{CallsHub};
ghost use Rattle.group_world.specs.declared.event.Event.TheVariants.{Draw};
ghost use Rattle.group_world.specs.Outcomes.{draw_outcome};
ghost use Rattle.old_clients.specs.Clients.{is_through, HasHeard, HasAnswered, HasClosed};
ghost use Rattle.turns.specs.Turns.{drawn_bytes, piece_size};
ghost use Rattle.daily_turns.specs.DrawSizes.{draw_size};

use group_hub::Hub;
use group_world::{Drawn, HubFault};
use old_clients::{ClientAdapter, PASSED};
use std::alloc::{AllocError, Global};
use std::marker::Model;
use word_search::SearchKeeper;

/// How many bytes are drawn in a turn, at most.
pub const DRAW_SIZE: usize = 16_384;

/// The bytes of a draw that are to be sent yet, where they were drawn: on the heap, in a buffer that one client leaves to the next. They are seen as those of an `ArrayVec`.
#[derive(Drop)]
pub struct Unsent {
    room: Vec<u8>,
    start: usize,
    end: usize,
}

impl Model for Unsent {
    ghost Value = { Items ℕ };

    ghost view = { λ u. record { items = drop u.start (take u.end u.room.items) } };

    ghost invariant = { λ u. (u.start ≤ u.end) × (u.end ≤ draw_size) × (vec_len u.room ≡ draw_size) };
}

// What is passed on of a piece finds room there too.
const _: () = prove!(PASSED <= DRAW_SIZE);

/// These bytes in front of the buffer.
fn put_front(room: &mut [u8], bytes: &[u8])
    requires { length bytes.now ≤ length room.old }
    ensures { take (length bytes.now) room.new ≡ bytes.now }
{
    room[..bytes.len()].copy_from_slice(bytes);
}

/// How many bytes were drawn, but no more than there is room for.
fn count_of(drawn: &Result<Drawn, HubFault>) -> usize
    ensures few { result ≤ draw_size }
    ensures front { (room : List ℕ) → length room ≡ draw_size → take result room ≡ drawn_bytes (draw_outcome drawn.now room) }
{
    match drawn {
        Ok(Drawn::Bytes(count)) => (*count).min(DRAW_SIZE),
        _ => 0,
    }
}

/// The bytes of one draw in front of the buffer, and how many they are.
fn draw_front<S: SearchKeeper>(
    room: &mut [u8],
    hub: &mut Hub<S>,
    id: u64,
) -> (Result<Drawn, HubFault>, usize)
    requires { length room.old ≡ draw_size }
    ensures call { CallsHub hub.old (Draw id draw_size) (draw_outcome result.0 (take result.1 room.new)) hub.new }
    ensures bytes { take result.1 room.new ≡ drawn_bytes (draw_outcome result.0 (take result.1 room.new)) }
    ensures few { result.1 ≤ draw_size }
{
    let drawn = hub.draw(id, room);
    let count = count_of(&drawn);
    (drawn, count)
}

/// None of the bytes of a buffer.
fn none_in(room: Vec<u8>) -> Unsent
    requires { vec_len room ≡ draw_size }
    ensures { result.items ≡ [] }
{
    Unsent {
        room,
        start: 0,
        end: 0,
    }
}

impl Unsent {
    /// No bytes, and a buffer for those of a draw.
    pub fn new(alloc: Global) -> Result<Self, AllocError>
        ensures { IfOk result (λ unsent. unsent.items ≡ []) }
    {
        Ok(none_in(vec![in alloc; 0; DRAW_SIZE]?))
    }

    /// None of the bytes.
    pub(crate) fn clear(&mut self)
        ensures { self.new.items ≡ [] }
    {
        self.start = 0;
        self.end = 0;
    }

    /// The bytes.
    pub(crate) fn as_slice(&self) -> &[u8]
        ensures value { result.now ≡ self.now.items }
    {
        &self.room[self.start..self.end]
    }

    /// Whether there are none.
    pub(crate) fn is_empty(&self) -> bool
        ensures { result ≡ (length self.now.items == 0) }
    {
        self.as_slice().is_empty()
    }

    /// These bytes in place of those.
    pub(crate) fn fill(&mut self, bytes: &[u8])
        requires { length bytes.now ≤ draw_size }
        ensures { self.new.items ≡ bytes.now }
    {
        put_front(self.room.as_mut_slice(), bytes);
        self.start = 0;
        self.end = bytes.len();
    }

    /// All but so many of the first.
    pub(crate) fn pass(&mut self, count: usize)
        ensures { self.new.items ≡ drop count self.old.items }
    {
        self.start = self.start.saturating_add(count).min(self.end);
    }

    /// What is passed on of a piece that a client sent, in place of those.
    pub(crate) fn hear(&mut self, adapter: &mut ClientAdapter, piece: &[u8])
        requires { length piece.now ≤ piece_size }
        ensures { HasHeard adapter.old piece.now self.new.items adapter.new }
    {
        let passed = adapter.hear(piece, self.room.as_mut_slice());
        self.start = 0;
        self.end = passed;
    }

    /// What is sent of bytes that were drawn, in place of those.
    pub(crate) fn answer(&mut self, adapter: &mut ClientAdapter, drawn: &[u8])
        requires room { 40 + 8 * length drawn.now < draw_size }
        requires adapts { is_through adapter.old.answers ≡ false }
        ensures { HasAnswered adapter.old drawn.now self.new.items adapter.new }
    {
        let given = adapter.answer(drawn, self.room.as_mut_slice());
        self.start = 0;
        self.end = given;
    }

    /// What is left to be sent of a reply that has ended, in place of those.
    pub(crate) fn finish(&mut self, adapter: &mut ClientAdapter)
        requires { is_through adapter.old.answers ≡ false }
        ensures { HasClosed adapter.old self.new.items adapter.new }
    {
        let given = adapter.close(self.room.as_mut_slice());
        self.start = 0;
        self.end = given;
    }

    /// The bytes of one draw in place of those.
    pub(crate) fn draw<S: SearchKeeper>(
        &mut self,
        hub: &mut Hub<S>,
        id: u64,
    ) -> Result<Drawn, HubFault>
        ensures call { CallsHub hub.old (Draw id draw_size) (draw_outcome result self.new.items) hub.new }
        ensures bytes { self.new.items ≡ drawn_bytes (draw_outcome result self.new.items) }
        ensures few { length self.new.items ≤ draw_size }
    {
        let (drawn, count) = draw_front(self.room.as_mut_slice(), hub, id);
        self.start = 0;
        self.end = count;
        drawn
    }
}
