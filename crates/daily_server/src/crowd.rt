// Who is turned away, since as many of its origin are in as may be.
ghost use Rattle.std.specs.Prelude.{◌≡◌, ◌<◌, [], ◌∷◌, ◌++◌, length, filter};
ghost use Rattle.daily_server.specs.Origins.{is_same, origin_of};
ghost use Rattle.daily_server.specs.DailyClients as spec;
ghost use Rattle.daily_server.specs.declared.daily_client.DailyClient.{DailyClient as Client};

use crate::ReadySocket;
use crate::daily_client::DailyClient;
use crate::service::MOST_CLIENTS;
use arrayvec::ArrayVec;
use daily_turns::ReadyWire;
use mio::net::TcpStream;
use std::net::{IpAddr, Ipv4Addr};

/// A client that was turned away.
#[derive(Drop)]
pub struct Away {
    pub from: IpAddr,
    /// How many bytes it took of what it was told.
    pub taken: u64,
}

impl Default for Away {
    fn default() -> Self {
        Away {
            from: IpAddr::V4(Ipv4Addr::UNSPECIFIED),
            taken: 0,
        }
    }
}

/// Who was turned away in a round, in order.
pub type Crowd = ArrayVec<Away, MOST_CLIENTS>;

/// Whether two addresses are of one origin.
pub(crate) fn is_same_origin(one: IpAddr, other: IpAddr) -> bool
    ensures { result ≡ is_same (origin_of one) (origin_of other) }
{
    match (one.to_canonical(), other.to_canonical()) {
        (IpAddr::V4(one), IpAddr::V4(other)) => one.octets() == other.octets(),
        (IpAddr::V6(one), IpAddr::V6(other)) => one.octets()[..8] == other.octets()[..8],
        _ => false,
    }
}

/// How many clients are of the origin of an address.
fn count_of(clients: &[DailyClient], from: IpAddr) -> usize
    ensures { result ≡ length (filter (λ (client : Client). is_same (origin_of client.from) (origin_of from)) clients.now) }
{
    clients
        .iter()
        .filter(|client| is_same_origin(client.from, from))
        .count()
}

/// Whether as many clients of the origin of an address are in as may be.
pub(crate) fn is_crowded(clients: &[DailyClient], from: IpAddr, most: u32) -> bool
    ensures { result ≡ spec.is_crowded most clients.now from }
{
    count_of(clients, from) >= most as usize
}

/// What a client is told that is turned away: its request is not read, so that it is told plainly.
#[tactic(auto, unfolding(text_writer::specs::Errors::plain_error, text_writer::specs::Errors::words_of))]
fn crowd_reply() -> &'static [u8]
    ensures { result.now ≡ spec.crowd_reply }
{
    b"3Try again later\t\terror.host\t1\r\n.\r\n"
}

/// A client is told to try again later, as far as it takes that at once, and its connection is closed. No other call is made of it.
pub(crate) fn decline(stream: TcpStream) -> ReadySocket
    ensures { spec.IsDeclined result }
{
    let mut socket = ReadySocket::new(stream);
    let _ = socket.write(crowd_reply());
    socket.close();
    socket
}

/// One more was turned away.
pub(crate) fn note_away(crowd: &mut Crowd, from: IpAddr, socket: &ReadySocket)
    requires { length crowd.old.items < 32 }
    ensures { crowd.new.items ≡ crowd.old.items ++ spec.away_on from socket.now ∷ [] }
{
    let taken = socket.taken();
    crowd.push(Away { from, taken });
}
