// Who has a turn again after a wait.
ghost use Rattle.std.specs.Prelude.{◌≡◌, false, map, option_map};
ghost use Rattle.std.specs.Duration.{as_nanos};
ghost use Rattle.mio.specs.Events.{items};
ghost use Rattle.daily_server.specs.Offices.{names_office};
ghost use Rattle.daily_server.specs.DailyClients.{all_wait, at_most_a_second, is_called, woken_by, was_in_vain};

use crate::daily_client::DailyClient;
use crate::ready_listener::{OFFICE_LISTENER, OFFICE_WIRE};
use crate::service::TICK;
use mio::{Events, Token};
use std::time::Duration;

/// Whether nobody has a turn.
pub(crate) fn all_wait(clients: &[DailyClient]) -> bool
    ensures { result ≡ all_wait clients.now }
{
    clients.iter().all(|client| !client.has_turn())
}

/// Whether an event is one of what has this token.
pub(crate) fn is_called(events: &Events, token: Token) -> bool
    ensures { result ≡ is_called (items events.now) token }
{
    events.iter().any(|event| event.token() == token)
}

/// Whether an event is one of an office's sockets.
pub(crate) fn names_office(events: &Events) -> bool
    ensures { result ≡ names_office (items events.now) }
{
    is_called(events, OFFICE_LISTENER) || is_called(events, OFFICE_WIRE)
}

/// A second, where a wait would have no end.
pub(crate) fn at_most_a_tick(patience: Option<Duration>) -> Option<Duration>
    ensures { option_map as_nanos result ≡ at_most_a_second (option_map as_nanos patience) }
{
    match patience {
        Some(time) => Some(time),
        None => Some(Duration::from_secs(TICK)),
    }
}

/// Whether a wait that had patience ended with no event.
pub(crate) fn was_in_vain(events: &Events, patience: Option<Duration>) -> bool
    ensures { result ≡ was_in_vain (option_map as_nanos patience) (items events.now) }
{
    match patience {
        Some(time) => events.is_empty() && !time.is_zero(),
        None => events.is_empty(),
    }
}

/// A client has its turn again where an event is one of its socket.
pub(crate) fn wake_if_called(client: &mut DailyClient, events: &Events)
    ensures { client.new ≡ woken_by false (items events.now) client.old }
{
    if is_called(events, client.token) {
        client.wake();
    }
}

/// Each client has its turn again where an event is one of its socket.
pub(crate) fn wake_called(clients: &mut [DailyClient], events: &Events)
    ensures { clients.new ≡ map (woken_by false (items events.now)) clients.old }
{
    for client in clients.iter_mut() {
        wake_if_called(client, events);
    }
}
