// What the log gets as a server begins to serve.
ghost use Rattle.std.specs.Prelude.{◌≡◌, IfOk};
ghost use Rattle.image_server.specs.Starting.{TellsStart};
ghost use Rattle.image_server.specs.Starting as spec;

use daily_server::write_line;
use host_types::Address;
use std::alloc::{AllocError, Global};
use std::io::Write;
use std::net::SocketAddr;
use turns::CallLog;

/// A second line where no other machine reaches the address.
fn who_comes(here: bool) -> &'static [u8]
    ensures { result.now ≡ spec.who_comes here }
{
    if here {
        b"\nonly this machine reaches it: --listen ADDRESS:PORT lets others in"
    } else {
        b""
    }
}

/// Whose site it is, where it is served, and who reaches it, without the last LF.
fn start_text(
    alloc: Global,
    here: bool,
    front: &Address<'_>,
    at: SocketAddr,
) -> Result<Vec<u8>, AllocError>
    ensures { IfOk result (λ t. t.items ≡ spec.start_text here front.now at) }
{
    let port = front.port;
    let mut text = Vec::new(alloc);
    text.extend_from_slice(b"serving ")?;
    text.extend_from_slice(front.host.as_bytes())?;
    text.extend_from_slice(format!(in alloc; ":{port} on {at}")?.as_bytes())?;
    text.extend_from_slice(who_comes(here))?;
    Ok(text)
}

/// Writes to the log whose site it is, where it is served, and who reaches it.
pub(crate) fn tell_start<L: Write>(alloc: Global, front: &Address<'_>, at: SocketAddr, log: &mut L)
    ensures { TellsStart L.contents front.now at log.old log.new }
{
    let here = at.ip().is_loopback();
    let text = start_text(alloc, here, front, at);
    write_line(text, log, &mut CallLog::new());
}
