// One turn of a session: a read or a draw, with its writes.
ghost use Rattle.std.specs.Prelude.{◌≡◌, ◌⊎◌, Bool, true, List, [], ◌++◌};
ghost use Rattle.text_writer.specs.Errors.{error_reply};
ghost use Rattle.text_writer.specs.declared.error.ErrorText.TheVariants.{TryAgainLater};
ghost use Rattle.group_hub.specs.Calls.{CallsHub, RunsHub};
ghost use Rattle.group_world.specs.Outcomes.{bytes_outcome, heard_outcome};
ghost use Rattle.group_world.specs.declared.event.Outcome.TheVariants.{Fault};
ghost use Rattle.turns.specs.Runs.{HasRun};
ghost use Rattle.turns.specs.WireCalls.{WireCall, HasMade, IsSent};
ghost use Rattle.turns.specs.Turns.{trace, is_closed, For, Joins, Turn, Learns, EndsConnection, HearsOneRead, HearsNothing, IsTold, AsksForReply, DrawsAndSends, LeavesAndCloses, Follows, heard_event, heard_reply, heard_stage};

use crate::connection::{Connection, Stage};
use crate::sending::send;
use crate::{Clock, Wire};
use group_hub::Hub;
use group_world::{Drawn, HubFault, InputStatus};
use host_types::Stamp;
use word_search::SearchKeeper;

/// How many bytes are read or drawn in a turn, at most.
pub const PIECE: usize = 512;

/// What a client gets whose post could not be made, by Gopher+.
#[tactic(auto, unfolding(text_writer::specs::Errors::plus_error, text_writer::specs::Errors::words_of))]
pub fn try_again_later() -> &'static [u8]
    ensures { result.now ≡ error_reply true TryAgainLater [] }
{
    b"--1\r\n2 Try again later\r\n.\r\n"
}

/// The client is asked to try again later where there is no room for its post, or too many wait, or its own is left; it hears of no other fault.
fn refused<W: Wire>(wire: &mut W, fault: HubFault)
    ensures { HasMade (W.calls wire.old) (W.calls wire.new) (λ made. (whole : Bool) × IsSent (heard_reply (Fault fault)) made whole) }
{
    match fault {
        HubFault::Full { .. } | HubFault::Crowded | HubFault::NotReady => {
            let _ = send(wire, try_again_later());
        }
        _ => {}
    }
}

/// Where a session is once the hub took what it heard.
fn stage_after(id: u64, status: InputStatus) -> Stage
    ensures { result ≡ heard_stage id (heard_outcome status) }
{
    match status {
        InputStatus::More => Stage::Listening(id),
        InputStatus::Ready => Stage::Replying(id),
        InputStatus::Finished => Stage::Left,
        InputStatus::Waiting => Stage::Waiting(id),
    }
}

/// Where a session is once what it heard is answered, and what its client hears of that.
fn heard<W: Wire>(wire: &mut W, id: u64, answer: Result<InputStatus, HubFault>) -> Stage
    ensures stage { result ≡ heard_stage id (bytes_outcome answer) }
    ensures reply { HasMade (W.calls wire.old) (W.calls wire.new) (λ made. (whole : Bool) × IsSent (heard_reply (bytes_outcome answer)) made whole) }
{
    match answer {
        Ok(status) => stage_after(id, status),
        Err(fault) => {
            refused(wire, fault);
            Stage::Left
        }
    }
}

/// The hub gets what was read: no bytes are the end.
fn tell_at<S: SearchKeeper>(
    hub: &mut Hub<S>,
    id: u64,
    piece: &[u8],
    now: Stamp,
) -> Result<InputStatus, HubFault>
    ensures { CallsHub hub.old (heard_event id piece.now now) (bytes_outcome result) hub.new }
{
    if piece.is_empty() {
        hub.end(id, now)
    } else {
        hub.bytes(id, piece, now)
    }
}

/// The hub gets what was read, at a moment of the clock. Where no more posts may wait those that do are made, and then it gets it once more.
pub fn tell<S: SearchKeeper, C: Clock>(
    hub: &mut Hub<S>,
    id: u64,
    piece: &[u8],
    clock: &mut C,
) -> Result<InputStatus, HubFault>
    ensures { HasRun RunsHub hub.old hub.new (C.given clock.old) (C.given clock.new) (λ es os. IsTold id piece.now es os (bytes_outcome result)) }
{
    match tell_at(hub, id, piece, clock.now()) {
        Ok(status) => Ok(status),
        Err(fault) => match fault {
            HubFault::Crowded => {
                let _ = hub.flush();
                tell_at(hub, id, piece, clock.now())
            }
            _ => Err(fault),
        },
    }
}

/// One read, and what the hub makes of it.
fn hear<S: SearchKeeper, W: Wire, C: Clock>(
    hub: &mut Hub<S>,
    wire: &mut W,
    clock: &mut C,
    id: u64,
) -> Stage
    ensures { HasRun RunsHub hub.old hub.new (C.given clock.old) (C.given clock.new) (λ es os. HasMade (W.calls wire.old) (W.calls wire.new) (λ made. HearsOneRead id (trace made es os) result ⊎ HearsNothing (trace made es os) result)) }
{
    let mut buffer = [0; PIECE];
    let Ok(count) = wire.read(&mut buffer) else {
        return Stage::Left;
    };
    let answer = tell(hub, id, &buffer[..count], clock);
    heard(wire, id, answer)
}

/// One draw, with its writes.
fn reply<S: SearchKeeper, W: Wire>(hub: &mut Hub<S>, wire: &mut W, id: u64) -> Stage
    ensures { HasRun RunsHub hub.old hub.new [] [] (λ es os. HasMade (W.calls wire.old) (W.calls wire.new) (λ made. DrawsAndSends id (trace made es os) result)) }
{
    let mut buffer = [0; PIECE];
    match hub.draw(id, &mut buffer) {
        Ok(Drawn::Bytes(count)) => {
            if send(wire, &buffer[..count.min(PIECE)]) {
                Stage::Replying(id)
            } else {
                Stage::Left
            }
        }
        Ok(Drawn::Finished) => Stage::Served,
        Err(_) => Stage::Left,
    }
}

/// Where a session is whose post waited, once the posts were made: its reply stands, or its post is left, and its client hears of that.
fn ask<S: SearchKeeper, W: Wire>(hub: &mut Hub<S>, wire: &mut W, id: u64) -> Stage
    ensures { HasRun RunsHub hub.old hub.new [] [] (λ es os. HasMade (W.calls wire.old) (W.calls wire.new) (λ made. AsksForReply id (trace made es os) result)) }
{
    match hub.draw(id, &mut []) {
        Ok(_) => Stage::Replying(id),
        Err(fault) => {
            refused(wire, fault);
            Stage::Left
        }
    }
}

/// The session leaves, and its wire is closed.
fn leave<S: SearchKeeper, W: Wire>(hub: &mut Hub<S>, wire: &mut W, id: u64)
    ensures { HasRun RunsHub hub.old hub.new [] [] (λ es os. HasMade (W.calls wire.old) (W.calls wire.new) (λ made. LeavesAndCloses id (trace made es os))) }
{
    let _ = hub.leave(id);
    wire.close();
}

/// A session joins on a connection that is new, or its wire is closed.
pub(crate) fn join<S: SearchKeeper, W: Wire>(hub: &mut Hub<S>, connection: &mut Connection<W>)
    ensures { HasRun RunsHub hub.old hub.new [] [] (λ es os. For W.calls Joins connection.old es os connection.new) }
{
    match connection.stage {
        Stage::New => match hub.join() {
            Ok(id) => connection.stage = Stage::Listening(id),
            Err(_) => {
                connection.wire.close();
                connection.stage = Stage::Left;
            }
        },
        _ => {}
    }
}

/// The session goes on as it is after a turn: one that doesn't go on leaves the hub, and its wire is closed.
fn go_on<S: SearchKeeper, W: Wire>(
    hub: &mut Hub<S>,
    connection: &mut Connection<W>,
    id: u64,
    after: Stage,
)
    ensures run { HasRun RunsHub hub.old hub.new [] [] (λ es os. HasMade (W.calls connection.old.wire) (W.calls connection.new.wire) (λ made. Follows id (is_closed after) (trace made es os))) }
    ensures stage { connection.new.stage ≡ after }
{
    connection.stage = after;
    if after.is_closed() {
        leave(hub, &mut connection.wire, id);
    }
}

/// One turn of a connection. One that doesn't go on leaves the hub, and its wire is closed.
pub(crate) fn take_turn<S: SearchKeeper, W: Wire, C: Clock>(
    hub: &mut Hub<S>,
    connection: &mut Connection<W>,
    clock: &mut C,
)
    ensures { HasRun RunsHub hub.old hub.new (C.given clock.old) (C.given clock.new) (λ es os. For W.calls Turn connection.old es os connection.new) }
{
    match connection.stage {
        Stage::Listening(id) => {
            let after = hear(hub, &mut connection.wire, clock, id);
            go_on(hub, connection, id, after);
        }
        Stage::Replying(id) => {
            let after = reply(hub, &mut connection.wire, id);
            go_on(hub, connection, id, after);
        }
        _ => {}
    }
}

/// A session whose post waited learns what came of it. One that doesn't go on leaves the hub, and its wire is closed.
pub(crate) fn learn<S: SearchKeeper, W: Wire>(hub: &mut Hub<S>, connection: &mut Connection<W>)
    ensures { HasRun RunsHub hub.old hub.new [] [] (λ es os. For W.calls Learns connection.old es os connection.new) }
{
    match connection.stage {
        Stage::Waiting(id) => {
            let after = ask(hub, &mut connection.wire, id);
            go_on(hub, connection, id, after);
        }
        _ => {}
    }
}

/// A session that is still open leaves, and its wire is closed.
pub(crate) fn end<S: SearchKeeper, W: Wire>(hub: &mut Hub<S>, connection: &mut Connection<W>)
    ensures { HasRun RunsHub hub.old hub.new [] [] (λ es os. For W.calls EndsConnection connection.old es os connection.new) }
{
    match connection.stage {
        Stage::Listening(id) | Stage::Waiting(id) | Stage::Replying(id) => {
            leave(hub, &mut connection.wire, id);
            connection.stage = Stage::Left;
        }
        _ => {}
    }
}
