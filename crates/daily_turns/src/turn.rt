// One turn of a session: a read, a draw or a write.
ghost use Rattle.std.specs.Prelude.{◌≡◌, ◌≤◌, true, false, [], ◌∷◌, ◌++◌, length};
ghost use Rattle.old_clients.specs.Clients.{is_through};
ghost use Rattle.group_hub.specs.Calls.{RunsHub};
ghost use Rattle.group_world.specs.Outcomes.{join_outcome, bytes_outcome};
ghost use Rattle.turns.specs.Runs.{HasRun};
ghost use Rattle.turns.specs.WireCalls.{HasMade, Closed};
ghost use Rattle.turns.specs.Turns.{trace, piece_size};
ghost use Rattle.daily_turns.specs.declared.ready_connection.ConnectionStage.TheVariants as ConnectionStage;
ghost use Rattle.daily_turns.specs.ReadyConnections as spec;
ghost use Rattle.daily_turns.specs.ReadyConnections.{at, state_of, has_left, joined_state, refused_state, heard_state, HearsPiece, AsksWhatCame, Draws, LeavesIfOver, Finishes, LearnsWhatCame, Dismissed, TurnedDown, IsConnected, HasTurn, HasKept, HearsFor, RepliesFor};

use crate::ReadyWire;
use crate::ready_connection::{ConnectionStage, Ending, ReadyConnection};
use crate::unsent::Unsent;
use crate::writing::write_on;
use group_hub::Hub;
use group_world::{Drawn, HubFault, InputStatus};
use old_clients::{ClientAdapter, SHARE};
use turns::{Clock, PIECE, tell, try_again_later};
use word_search::SearchKeeper;

/// How far a session is that joined, or could not.
fn joined(answer: Result<u64, HubFault>) -> ConnectionStage
    ensures { at result [] false ≡ joined_state (join_outcome answer) }
{
    match answer {
        Ok(id) => ConnectionStage::Listening(id),
        Err(_) => ConnectionStage::Leaving(Ending::Failed),
    }
}

/// A session joins on a wire, for an old client or another. It sends from this buffer, and nothing of what another client left there.
pub fn join<S: SearchKeeper, W: ReadyWire>(
    hub: &mut Hub<S>,
    wire: W,
    old_client: bool,
    mut unsent: Unsent,
) -> ReadyConnection<W>
    ensures { HasRun RunsHub hub.old hub.new [] [] (λ es os. IsConnected wire old_client es os result) }
{
    let stage = joined(hub.join());
    unsent.clear();
    ReadyConnection {
        wire,
        stage,
        unsent,
        waits: false,
        adapter: ClientAdapter::new(old_client),
    }
}

/// The client is asked to try again later where there is no room for its post, or too many wait, or its own is left; it hears of no other fault.
fn refused<W>(connection: &mut ReadyConnection<W>, fault: HubFault)
    ensures state { state_of connection.new ≡ refused_state fault }
    ensures wire { connection.new.wire ≡ connection.old.wire }
    ensures adapter { connection.new.adapter ≡ connection.old.adapter }
{
    match fault {
        HubFault::Full { .. } | HubFault::Crowded | HubFault::NotReady => {
            connection.become_stage(ConnectionStage::Leaving(Ending::Full), try_again_later());
        }
        _ => connection.become_stage(ConnectionStage::Leaving(Ending::Failed), b""),
    }
}

/// Where a session is once what it heard is answered, and what its client hears of that.
fn heard<W>(connection: &mut ReadyConnection<W>, id: u64, answer: Result<InputStatus, HubFault>)
    ensures state { state_of connection.new ≡ heard_state id (bytes_outcome answer) }
    ensures wire { connection.new.wire ≡ connection.old.wire }
    ensures adapter { connection.new.adapter ≡ connection.old.adapter }
{
    match answer {
        Ok(InputStatus::More) => connection.become_stage(ConnectionStage::Listening(id), b""),
        Ok(InputStatus::Ready) => connection.become_stage(ConnectionStage::Replying(id), b""),
        Ok(InputStatus::Finished) => connection.become_stage(
            ConnectionStage::Leaving(Ending::Cut),
            b"",
        ),
        Ok(InputStatus::Waiting) => connection.become_stage(ConnectionStage::Waiting(id), b""),
        Err(fault) => refused(connection, fault),
    }
}

/// Whether all of a piece is held back, where these bytes of it are passed on.
fn is_held(piece: &[u8], passed: &[u8]) -> bool
    ensures { result ≡ spec.is_held piece.now passed.now }
{
    !piece.is_empty() && passed.is_empty()
}

/// What was read is passed on, and what the hub makes of that; it is told of nothing where all is held back.
fn hear_piece<S: SearchKeeper, W, C: Clock>(
    hub: &mut Hub<S>,
    connection: &mut ReadyConnection<W>,
    clock: &mut C,
    id: u64,
    piece: &[u8],
)
    requires { length piece.now ≤ piece_size }
    ensures run { HasRun RunsHub hub.old hub.new (C.given clock.old) (C.given clock.new) (λ es os. HearsPiece connection.old.adapter connection.new.adapter id piece.now es os (state_of connection.new)) }
    ensures wire { connection.new.wire ≡ connection.old.wire }
{
    connection.unsent.hear(&mut connection.adapter, piece);
    if is_held(piece, connection.unsent.as_slice()) {
        connection.become_stage(ConnectionStage::Listening(id), b"");
    } else {
        let answer = tell(hub, id, connection.unsent.as_slice(), clock);
        heard(connection, id, answer);
    }
}

/// One read, and what the hub makes of it.
fn hear<S: SearchKeeper, W: ReadyWire, C: Clock>(
    hub: &mut Hub<S>,
    connection: &mut ReadyConnection<W>,
    clock: &mut C,
    id: u64,
)
    requires { connection.old.stage ≡ ConnectionStage.Listening id }
    ensures { HasRun RunsHub hub.old hub.new (C.given clock.old) (C.given clock.new) (λ es os. HearsFor W.calls id connection.old es os connection.new) }
{
    let mut buffer = [0; PIECE];
    match connection.wire.read(&mut buffer) {
        Ok(Some(count)) => hear_piece(hub, connection, clock, id, &buffer[..count]),
        Ok(None) => connection.waits = true,
        Err(_) => connection.become_stage(ConnectionStage::Leaving(Ending::Cut), b""),
    }
}

/// One draw, of bytes that are sent as they come.
fn draw_through<S: SearchKeeper, W>(hub: &mut Hub<S>, connection: &mut ReadyConnection<W>, id: u64)
    requires { is_through connection.old.adapter.answers ≡ true }
    ensures run { HasRun RunsHub hub.old hub.new [] [] (λ es os. Draws connection.old.adapter connection.new.adapter id (trace [] es os) (state_of connection.new)) }
    ensures wire { connection.new.wire ≡ connection.old.wire }
{
    match connection.unsent.draw(hub, id) {
        Ok(Drawn::Bytes(_)) => connection.go_on(ConnectionStage::Replying(id)),
        Ok(Drawn::Finished) => connection.become_stage(
            ConnectionStage::Leaving(Ending::Served),
            b"",
        ),
        Err(_) => connection.become_stage(ConnectionStage::Leaving(Ending::Failed), b""),
    }
}

/// One draw, of bytes that are adapted.
fn draw_adapted<S: SearchKeeper, W>(hub: &mut Hub<S>, connection: &mut ReadyConnection<W>, id: u64)
    requires { is_through connection.old.adapter.answers ≡ false }
    ensures run { HasRun RunsHub hub.old hub.new [] [] (λ es os. Draws connection.old.adapter connection.new.adapter id (trace [] es os) (state_of connection.new)) }
    ensures wire { connection.new.wire ≡ connection.old.wire }
{
    let mut drawn = [0; SHARE];
    match hub.draw(id, &mut drawn) {
        Ok(Drawn::Bytes(count)) => {
            let drawn = &drawn[..count.min(SHARE)];
            connection.unsent.answer(&mut connection.adapter, drawn);
            connection.go_on(ConnectionStage::Replying(id));
        }
        Ok(Drawn::Finished) => {
            connection.unsent.finish(&mut connection.adapter);
            connection.go_on(ConnectionStage::Leaving(Ending::Served));
        }
        Err(_) => connection.become_stage(ConnectionStage::Leaving(Ending::Failed), b""),
    }
}

/// One draw.
fn draw<S: SearchKeeper, W>(hub: &mut Hub<S>, connection: &mut ReadyConnection<W>, id: u64)
    ensures run { HasRun RunsHub hub.old hub.new [] [] (λ es os. Draws connection.old.adapter connection.new.adapter id (trace [] es os) (state_of connection.new)) }
    ensures wire { connection.new.wire ≡ connection.old.wire }
{
    if connection.adapter.is_through() {
        draw_through(hub, connection, id);
    } else {
        draw_adapted(hub, connection, id);
    }
}

/// Where a session is whose post waited, once the posts were made: its reply stands, or its post is left, and its client is to hear of that.
fn ask<S: SearchKeeper, W>(hub: &mut Hub<S>, connection: &mut ReadyConnection<W>, id: u64)
    ensures run { HasRun RunsHub hub.old hub.new [] [] (λ es os. AsksWhatCame id (trace [] es os) (state_of connection.new)) }
    ensures wire { connection.new.wire ≡ connection.old.wire }
    ensures adapter { connection.new.adapter ≡ connection.old.adapter }
{
    match hub.draw(id, &mut []) {
        Ok(_) => connection.become_stage(ConnectionStage::Replying(id), b""),
        Err(fault) => refused(connection, fault),
    }
}

/// A session that goes no further leaves the hub.
fn follow<S: SearchKeeper>(hub: &mut Hub<S>, stage: ConnectionStage, id: u64)
    ensures { HasRun RunsHub hub.old hub.new [] [] (λ es os. LeavesIfOver id (has_left stage) (trace [] es os)) }
{
    if stage.has_left() {
        let _ = hub.leave(id);
    }
}

/// One draw, or one write of what is to be sent.
fn reply<S: SearchKeeper, W: ReadyWire>(
    hub: &mut Hub<S>,
    connection: &mut ReadyConnection<W>,
    id: u64,
)
    requires stage { connection.old.stage ≡ ConnectionStage.Replying id }
    requires ready { connection.old.waits ≡ false }
    ensures { HasRun RunsHub hub.old hub.new [] [] (λ es os. RepliesFor W.calls id connection.old es os connection.new) }
{
    if connection.unsent.is_empty() {
        draw(hub, connection, id);
    } else {
        write_on(connection);
    }
}

/// The wire of a session is closed.
fn shut<W: ReadyWire>(connection: &mut ReadyConnection<W>, ending: Ending)
    ensures calls { W.calls connection.new.wire ≡ W.calls connection.old.wire ++ Closed ∷ [] }
    ensures state { state_of connection.new ≡ at (ConnectionStage.Closed ending) [] false }
    ensures adapter { connection.new.adapter ≡ connection.old.adapter }
{
    connection.wire.close();
    connection.become_stage(ConnectionStage::Closed(ending), b"");
}

/// The rest is sent to a session that has left the hub, and then its wire is closed.
fn finish<W: ReadyWire>(connection: &mut ReadyConnection<W>, ending: Ending)
    requires stage { connection.old.stage ≡ ConnectionStage.Leaving ending }
    requires ready { connection.old.waits ≡ false }
    ensures made { HasMade (W.calls connection.old.wire) (W.calls connection.new.wire) (λ made. Finishes ending connection.old.unsent.items (trace made [] []) (state_of connection.new)) }
    ensures adapter { connection.new.adapter ≡ connection.old.adapter }
{
    if connection.unsent.is_empty() {
        shut(connection, ending);
    } else {
        write_on(connection);
    }
}

/// One turn of a session: nothing while it rests, else a read, a draw or a write.
pub fn take_turn<S: SearchKeeper, W: ReadyWire, C: Clock>(
    hub: &mut Hub<S>,
    connection: &mut ReadyConnection<W>,
    clock: &mut C,
)
    ensures { HasRun RunsHub hub.old hub.new (C.given clock.old) (C.given clock.new) (λ es os. HasTurn W.calls connection.old es os connection.new) }
{
    if connection.waits {
        return;
    }
    match connection.stage {
        ConnectionStage::Listening(id) => {
            hear(hub, connection, clock, id);
            follow(hub, connection.stage, id);
        }
        ConnectionStage::Replying(id) => {
            reply(hub, connection, id);
            follow(hub, connection.stage, id);
        }
        ConnectionStage::Leaving(ending) => finish(connection, ending),
        ConnectionStage::Waiting(_) => {}
        ConnectionStage::Closed(_) => {}
    }
}

/// A session whose post waited learns what came of it, once the posts that wait were made.
pub fn learn<S: SearchKeeper, W: ReadyWire>(hub: &mut Hub<S>, connection: &mut ReadyConnection<W>)
    ensures { HasRun RunsHub hub.old hub.new [] [] (λ es os. HasKept W.calls LearnsWhatCame connection.old es os connection.new) }
{
    match connection.stage {
        ConnectionStage::Waiting(id) => {
            ask(hub, connection, id);
            follow(hub, connection.stage, id);
        }
        _ => {}
    }
}

/// A session whose time is over leaves the hub, and its wire is closed.
pub fn dismiss<S: SearchKeeper, W: ReadyWire>(hub: &mut Hub<S>, connection: &mut ReadyConnection<W>)
    ensures { HasRun RunsHub hub.old hub.new [] [] (λ es os. HasKept W.calls Dismissed connection.old es os connection.new) }
{
    match connection.stage {
        ConnectionStage::Listening(id)
        | ConnectionStage::Waiting(id)
        | ConnectionStage::Replying(id) => {
            let _ = hub.leave(id);
            shut(connection, Ending::Late);
        }
        ConnectionStage::Leaving(_) => shut(connection, Ending::Late),
        ConnectionStage::Closed(_) => {}
    }
}

/// A session whose post waits leaves the hub, so that its post is not made, and its client is asked to try again later.
pub fn turn_down<S: SearchKeeper, W: ReadyWire>(
    hub: &mut Hub<S>,
    connection: &mut ReadyConnection<W>,
)
    ensures { HasRun RunsHub hub.old hub.new [] [] (λ es os. HasKept W.calls TurnedDown connection.old es os connection.new) }
{
    match connection.stage {
        ConnectionStage::Waiting(session) => {
            let _ = hub.leave(session);
            connection.become_stage(ConnectionStage::Leaving(Ending::Often), try_again_later());
        }
        _ => {}
    }
}
