// The buffers of clients, of which one that has gone leaves its own to the next.
ghost use Rattle.std.specs.Prelude.{◌≡◌, ◌≤◌, ◌+◌, not, filter, vec_len, vec_capacity, IfOk};
ghost use Rattle.daily_server.specs.DailyClients.{has_gone};

use crate::daily_client::DailyClient;
use crate::service::MOST_CLIENTS;
use daily_turns::Unsent;
use std::alloc::{AllocError, Global};

/// A buffer for each client that may be in.
pub(crate) fn make_buffers(alloc: Global) -> Result<Vec<Unsent>, AllocError>
    ensures each { IfOk result (λ free. vec_len free ≡ 32) }
    ensures space { IfOk result (λ free. 32 ≤ vec_capacity free) }
{
    let mut free = Vec::with_capacity(alloc, MOST_CLIENTS)?;
    for _client in 0..MOST_CLIENTS {
        free.push(Unsent::new(alloc)?)?;
    }
    Ok(free)
}

/// Those that have gone are in no more, and their buffers are free.
pub(crate) fn sweep_gone(clients: &mut Vec<DailyClient>, free: &mut Vec<Unsent>)
    requires { vec_len clients.old + vec_len free.old ≤ vec_capacity free.old }
    ensures clients { clients.new.items ≡ filter (λ client. not (has_gone client)) clients.old.items }
    ensures each { vec_len clients.new + vec_len free.new ≡ vec_len clients.old + vec_len free.old }
    ensures space { vec_capacity clients.new ≡ vec_capacity clients.old }
    ensures free_space { vec_capacity free.new ≡ vec_capacity free.old }
{
    for at in (0..clients.len()).rev() {
        if clients[at].is_closed() {
            let gone = clients.remove(at);
            free.push_reserved(gone.connection.into_unsent());
        }
    }
}
