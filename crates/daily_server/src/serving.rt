// Serves whoever comes.
ghost use Rattle.std.specs.Prelude.{◌≡◌, ◌+◌, ◌<◌, ◌≤◌, ℕ, List, [], ◌∷◌, ◌++◌, length, map, vec_len, vec_capacity, IfOk, IsOkAnd};
ghost use Rattle.group_hub.specs.Calls.{RunsHub};
ghost use Rattle.turns.specs.Runs.{HasRun};
ghost use Rattle.daily_server.specs.Rounds.{who, HasLetIn, HasHadTurns, AllHadTurns, HasSeenOff, ServesInHub};
ghost use Rattle.turns.specs.Turns.{Both, StepsInOrder, IsFlushed};
ghost use Rattle.daily_server.specs.DailyClients.{HasSpace, NoClientWaits, HadTurn, HadLimitedTurn, HadPass, IsLetThroughBy, Learned, WasDismissed, HadPasses, WereServed, ComesInOrNot, IsReceived};
ghost use Rattle.daily_server.specs.Logged.{crowd_line, HasLine, IsTold, IsToldOff, AreTold, AreToldOff, IsLogged};

use crate::crowd::{Away, Crowd, decline, is_crowded, note_away};
use crate::daily_client::DailyClient;
use crate::lines::{LogRecord, address_text, log_line};
use crate::posts::{RecentPosts, take_post};
use crate::service::{DailyFault, MOST_CLIENTS, Service};
use crate::stopwatch::Stopwatch;
use crate::waking::all_wait;
use crate::written::write_out;
use crate::{LogForm, Office, ReadySocket, Terms};
use daily_turns::{Ending, Unsent, dismiss, join, learn, take_turn, turn_down};
use group_hub::Hub;
use host_types::Stamp;
use mio::Token;
use mio::net::TcpStream;
use socket_wires::SystemClock;
use std::alloc::{AllocError, Global};
use std::io::Write;
use std::net::IpAddr;
use std::time::Clock as Time;
use turns::{CallLog, Clock};
use word_search::SearchKeeper;

/// How many turns each client has before others are let in, at most.
const TURNS: u32 = 16;

/// A session joins for a client that came, with a buffer that is free. It leaves at once where no memory is found for it.
fn enter<S: SearchKeeper>(
    clients: &mut Vec<DailyClient>,
    free: &mut Vec<Unsent>,
    hub: &mut Hub<S>,
    next: (TcpStream, IpAddr, Token),
    now: u64,
    terms: Terms,
)
    requires { 0 < vec_len free.old }
    ensures run { HasRun RunsHub hub.old hub.new [] [] (λ es os. ComesInOrNot terms (HasSpace clients.old) next.1 next.2 now clients.old.items es os clients.new.items) }
    ensures capacity { vec_capacity clients.old ≤ vec_capacity clients.new }
    ensures each { vec_len clients.new + vec_len free.new ≡ vec_len clients.old + vec_len free.old }
    ensures free_capacity { vec_capacity free.new ≡ vec_capacity free.old }
{
    let (stream, from, token) = next;
    let unsent = free.pop().unwrap();
    let client = DailyClient {
        connection: join(hub, ReadySocket::new(stream), terms.old_clients, unsent),
        from,
        token,
        came: now,
        moved: now,
    };
    if let Err(failed) = clients.push(client) {
        let mut client = failed.value;
        dismiss(hub, &mut client.connection);
        free.push_reserved(client.connection.into_unsent());
    }
}

/// A session joins for a client that came, or it is turned away, where as many of its origin are in as may be.
fn receive<S: SearchKeeper>(
    clients: &mut Vec<DailyClient>,
    free: &mut Vec<Unsent>,
    hub: &mut Hub<S>,
    next: (TcpStream, IpAddr, Token),
    now: u64,
    terms: Terms,
    crowd: &mut Crowd,
)
    requires few { length crowd.old.items < 32 }
    requires free { 0 < vec_len free.old }
    ensures run { HasRun RunsHub hub.old hub.new [] [] (λ es os. IsReceived terms (HasSpace clients.old) next.1 next.2 now clients.old.items es os clients.new.items crowd.old.items crowd.new.items) }
    ensures capacity { vec_capacity clients.old ≤ vec_capacity clients.new }
    ensures each { vec_len clients.new + vec_len free.new ≡ vec_len clients.old + vec_len free.old }
    ensures free_capacity { vec_capacity free.new ≡ vec_capacity free.old }
    ensures few { length crowd.new.items ≤ length crowd.old.items + 1 }
{
    if is_crowded(clients.as_slice(), next.1, terms.most) {
        let (stream, from, _) = next;
        let socket = decline(stream);
        note_away(crowd, from, &socket);
    } else {
        enter(clients, free, hub, next, now, terms);
    }
}

/// A session joins for each client that comes, as long as there is space and not too many of its origin are in. It answers who was turned away.
fn admit<S: SearchKeeper>(service: &mut Service, hub: &mut Hub<S>, now: u64, terms: Terms) -> Crowd
    ensures { HasRun RunsHub hub.old hub.new [] [] (λ es os. HasLetIn terms now service.old es os service.new result.items) }
{
    let mut crowd = Crowd::new();
    for _client in 0..MOST_CLIENTS {
        let Some(next) = service.next() else {
            return crowd;
        };
        let (clients, free) = (&mut service.clients, &mut service.free);
        receive(clients, free, hub, next, now, terms, &mut crowd);
    }
    crowd
}

/// One turn for a client.
fn take_turn_of<S: SearchKeeper, C: Clock>(
    client: &mut DailyClient,
    hub: &mut Hub<S>,
    clock: &mut C,
    now: u64,
)
    ensures run { HasRun RunsHub hub.old hub.new (C.given clock.old) (C.given clock.new) (λ es os. HadTurn now client.old es os client.new) }
    ensures who { who client.new ≡ who client.old }
{
    take_turn(hub, &mut client.connection, clock);
    client.note_move(now);
}

/// A client's post came to wait. Where posts are limited, and as many of its origin came of late as may be, the client is turned down.
fn limit_post<S: SearchKeeper>(
    client: &mut DailyClient,
    posts: &mut RecentPosts,
    hub: &mut Hub<S>,
    now: u64,
    most: Option<u32>,
)
    ensures run { HasRun RunsHub hub.old hub.new [] [] (λ es os. IsLetThroughBy most now (client.old, posts.old.items) es os (client.new, posts.new.items)) }
    ensures who { who client.new ≡ who client.old }
{
    let Some(most) = most else {
        return;
    };
    if !take_post(posts, client.from, now, most) {
        turn_down(hub, &mut client.connection);
    }
}

/// One turn for a client, of which a post that comes to wait in it may be one too many.
fn take_limited_turn<S: SearchKeeper, C: Clock>(
    client: &mut DailyClient,
    posts: &mut RecentPosts,
    hub: &mut Hub<S>,
    clock: &mut C,
    now: u64,
    most: Option<u32>,
)
    ensures run { HasRun RunsHub hub.old hub.new (C.given clock.old) (C.given clock.new) (λ es os. HadLimitedTurn most now (client.old, posts.old.items) es os (client.new, posts.new.items)) }
    ensures who { who client.new ≡ who client.old }
{
    let waited = client.connection.stage().is_waiting();
    take_turn_of(client, hub, clock, now);
    if !waited && client.connection.stage().is_waiting() {
        limit_post(client, posts, hub, now, most);
    }
}

/// One turn for each client, in order.
fn pass<S: SearchKeeper, C: Clock>(
    clients: &mut [DailyClient],
    posts: &mut RecentPosts,
    hub: &mut Hub<S>,
    clock: &mut C,
    now: u64,
    most: Option<u32>,
)
    ensures run { HasRun RunsHub hub.old hub.new (C.given clock.old) (C.given clock.new) (λ es os. HadPass most now (clients.old, posts.old.items) es os (clients.new, posts.new.items)) }
    ensures same_who { map who clients.new ≡ map who clients.old }
{
    for client in clients.iter_mut() {
        take_limited_turn(client, posts, hub, clock, now, most);
    }
}

/// Passes over the clients, until nobody has a turn.
fn give_turns<S: SearchKeeper, C: Clock>(
    clients: &mut [DailyClient],
    posts: &mut RecentPosts,
    hub: &mut Hub<S>,
    clock: &mut C,
    now: u64,
    most: Option<u32>,
)
    ensures run { HasRun RunsHub hub.old hub.new (C.given clock.old) (C.given clock.new) (λ es os. HadPasses most now (clients.old, posts.old.items) es os (clients.new, posts.new.items)) }
    ensures same_who { map who clients.new ≡ map who clients.old }
{
    for _pass in 0..TURNS {
        if all_wait(clients) {
            return;
        }
        pass(clients, posts, hub, clock, now, most);
    }
}

/// A client whose post waited learns what came of it.
fn learn_of<S: SearchKeeper>(client: &mut DailyClient, hub: &mut Hub<S>)
    ensures run { HasRun RunsHub hub.old hub.new [] [] (λ es os. Learned client.old es os client.new) }
    ensures who { who client.new ≡ who client.old }
{
    learn(hub, &mut client.connection);
}

/// Each client whose post waited learns what came of it, in order.
fn learn_all<S: SearchKeeper>(clients: &mut [DailyClient], hub: &mut Hub<S>)
    ensures run { HasRun RunsHub hub.old hub.new [] [] (λ es os. StepsInOrder Learned clients.old es os clients.new) }
    ensures same_who { map who clients.new ≡ map who clients.old }
{
    for client in clients.iter_mut() {
        learn_of(client, hub);
    }
}

/// The posts that wait are made, and their clients learn what came of them.
fn make_posts<S: SearchKeeper>(clients: &mut [DailyClient], hub: &mut Hub<S>)
    ensures run { HasRun RunsHub hub.old hub.new [] [] (λ es os. Both IsFlushed (StepsInOrder Learned) clients.old es os clients.new) }
    ensures same_who { map who clients.new ≡ map who clients.old }
{
    let _ = hub.flush();
    learn_all(clients, hub);
}

/// A client goes whose time is over.
fn dismiss_if_over<S: SearchKeeper>(client: &mut DailyClient, hub: &mut Hub<S>, now: u64)
    ensures run { HasRun RunsHub hub.old hub.new [] [] (λ es os. WasDismissed now client.old es os client.new) }
    ensures who { who client.new ≡ who client.old }
{
    if client.is_over(now) {
        dismiss(hub, &mut client.connection);
    }
}

/// Whose time is over goes.
fn dismiss_late<S: SearchKeeper>(clients: &mut [DailyClient], hub: &mut Hub<S>, now: u64)
    ensures run { HasRun RunsHub hub.old hub.new [] [] (λ es os. StepsInOrder (WasDismissed now) clients.old es os clients.new) }
    ensures same_who { map who clients.new ≡ map who clients.old }
{
    for client in clients.iter_mut() {
        dismiss_if_over(client, hub, now);
    }
}

/// Turns for all clients. Then the posts that wait are made, and whose time is over goes.
fn serve_all<S: SearchKeeper, C: Clock>(
    clients: &mut [DailyClient],
    posts: &mut RecentPosts,
    hub: &mut Hub<S>,
    clock: &mut C,
    now: u64,
    most: Option<u32>,
)
    ensures run { HasRun RunsHub hub.old hub.new (C.given clock.old) (C.given clock.new) (λ es os. WereServed most now (clients.old, posts.old.items) es os (clients.new, posts.new.items)) }
    ensures same_who { map who clients.new ≡ map who clients.old }
    ensures nobody_waits { NoClientWaits clients.new }
{
    give_turns(clients, posts, hub, clock, now, most);
    make_posts(clients, hub);
    dismiss_late(clients, hub, now);
}

/// A line with its LF.
fn with_end(line: Result<Vec<u8>, AllocError>) -> Result<Vec<u8>, AllocError>
    ensures { IfOk result (λ text. IsOkAnd line (λ l. text.items ≡ l.items ++ 10 ∷ [])) }
{
    let mut line = line?;
    line.push(b'\n')?;
    Ok(line)
}

/// A line is written to the log. Where there is no memory for it, the log says so.
pub fn write_line<L: Write>(line: Result<Vec<u8>, AllocError>, log: &mut L, written: &mut CallLog)
    ensures { (bytes : List ℕ) → IfOk line (λ l. l.items ≡ bytes) → HasLine L.contents bytes (log.old, written.old.calls) (log.new, written.new.calls) }
{
    match with_end(line) {
        Ok(line) => {
            write_out(log, written, &line);
        }
        Err(_) => {
            write_out(log, written, b"memory\n");
        }
    }
}

/// A line of the log for a client that has gone.
fn tell_if_gone<L: Write>(
    alloc: Global,
    form: LogForm,
    client: &DailyClient,
    moment: Stamp,
    log: &mut L,
    written: &mut CallLog,
)
    ensures { IsTold L.contents form moment client.now (log.old, written.old.calls) (log.new, written.new.calls) }
{
    if let Some(ending) = client.connection.stage().ending() {
        write_line(client.line(alloc, form, moment, ending), log, written);
    }
}

/// A line of the log for each client that has gone.
fn tell_gone<L: Write>(
    alloc: Global,
    form: LogForm,
    clients: &[DailyClient],
    moment: Stamp,
    log: &mut L,
    written: &mut CallLog,
)
    ensures { AreTold L.contents form moment clients.now (log.old, written.old.calls) (log.new, written.new.calls) }
{
    for client in clients.iter() {
        tell_if_gone(alloc, form, client, moment, log, written);
    }
}

/// The line of a client that was turned away.
fn away_line(
    alloc: Global,
    form: LogForm,
    away: &Away,
    moment: Stamp,
) -> Result<Vec<u8>, AllocError>
    ensures { IfOk result (λ text. text.items ≡ crowd_line form moment away.now) }
{
    let from = address_text(alloc, away.from)?;
    let ending = Ending::Crowd;
    log_line(
        alloc,
        form,
        &LogRecord {
            moment,
            from: &from,
            selector: b"",
            ending,
            taken: away.taken,
            stored: None,
        },
    )
}

/// A line of the log for a client that was turned away.
fn tell_off<L: Write>(
    alloc: Global,
    form: LogForm,
    away: &Away,
    moment: Stamp,
    log: &mut L,
    written: &mut CallLog,
)
    ensures { IsToldOff L.contents form moment away.now (log.old, written.old.calls) (log.new, written.new.calls) }
{
    write_line(away_line(alloc, form, away, moment), log, written);
}

/// A line of the log for each client that was turned away.
fn tell_crowd<L: Write>(
    alloc: Global,
    form: LogForm,
    crowd: &[Away],
    moment: Stamp,
    log: &mut L,
    written: &mut CallLog,
)
    ensures { AreToldOff L.contents form moment crowd.now (log.old, written.old.calls) (log.new, written.new.calls) }
{
    for away in crowd.iter() {
        tell_off(alloc, form, away, moment, log, written);
    }
}

/// A line of the log for each client that was turned away or has gone, and then it is in no more.
fn see_off<R: Time, L: Write>(
    alloc: Global,
    form: LogForm,
    service: &mut Service,
    crowd: &[Away],
    moments: &mut SystemClock<'_, R>,
    log: &mut L,
    written: &mut CallLog,
)
    ensures gone { HasSeenOff service.old service.new }
    ensures logged { IsLogged L.contents form moments.old.given.moments moments.new.given.moments crowd.now service.old.clients.items (log.old, written.old.calls) (log.new, written.new.calls) }
{
    if !crowd.is_empty() || service.has_closed() {
        let moment = moments.now();
        tell_crowd(alloc, form, crowd, moment, log, written);
        tell_gone(alloc, form, &service.clients, moment, log, written);
        service.sweep();
    }
}

/// Who is ready comes in, and has turns; whose time is over goes. It answers who was turned away.
fn clients_turns<S: SearchKeeper, C: Clock>(
    service: &mut Service,
    hub: &mut Hub<S>,
    clock: &mut C,
    now: u64,
    terms: Terms,
) -> Crowd
    ensures { HasRun RunsHub hub.old hub.new (C.given clock.old) (C.given clock.new) (λ es os. HasHadTurns terms now service.old es os service.new result.items) }
{
    let crowd = admit(service, hub, now, terms);
    let most = terms.posts;
    serve_all(
        &mut service.clients,
        &mut service.posts,
        hub,
        clock,
        now,
        most,
    );
    crowd
}

/// Turns with whoever asks to come in, and then one turn of the office. It answers who was turned away.
fn round<S: SearchKeeper, C: Clock, O: Office>(
    service: &mut Service,
    office: &mut O,
    hub: &mut Hub<S>,
    clock: &mut C,
    called: bool,
    now: u64,
    terms: Terms,
) -> Crowd
    ensures { HasRun RunsHub hub.old hub.new (C.given clock.old) (C.given clock.new) (λ es os. AllHadTurns O.works terms called now (service.old, office.old) es os (service.new, office.new) result.items) }
{
    let crowd = clients_turns(service, hub, clock, now, terms);
    office.turn(&service.desk(), hub, clock, called, now);
    crowd
}

/// Serves whoever comes on these terms, up to 32 clients at a time, until a write or a sync of what the site is kept on has failed, or no socket can be waited for.
/// Where posts wait for one another they are made behind the turns of each round, and behind a round nobody waits: who did learned that the post is stored, or is asked to try again later.
/// For each client that has gone the log gets a line, as far as it takes it. The watch is read once a round.
/// Behind the turns of each round the office has one.
pub fn serve_in_hub<S: SearchKeeper, C: Clock, R: Time, L: Write, O: Office>(
    alloc: Global,
    rt: &R,
    watch: &mut Stopwatch,
    service: &mut Service,
    office: &mut O,
    hub: &mut Hub<S>,
    clock: &mut C,
    log: &mut L,
    terms: Terms,
) -> Result<(), DailyFault>
    ensures { ServesInHub L.contents O.lets_wait O.works terms result hub.old hub.new (service.old, log.old, watch.old.read.readings, office.old) (service.new, log.new, watch.new.read.readings, office.new) (C.given clock.old) (C.given clock.new) }
{
    let mut moments = SystemClock::new(rt);
    let mut written = CallLog::new();
    for _round in 0..u64::MAX {
        if !hub.is_usable() {
            return Err(DailyFault::Failed);
        }
        let called = service.wait(office.pace())?;
        let now = watch.seconds(rt);
        let crowd = round(service, office, hub, clock, called, now, terms);
        see_off(
            alloc,
            terms.log,
            service,
            crowd.as_slice(),
            &mut moments,
            log,
            &mut written,
        );
    }
    Ok(())
}
