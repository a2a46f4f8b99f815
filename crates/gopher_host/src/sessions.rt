// The commands that run sessions over an image in a file, or over a site in memory.
ghost use Rattle.std.specs.Prelude.{◌≡◌, true, false, None, IfSome};
ghost use Rattle.gopher_host.specs.Endings.{given_beside};
ghost use Rattle.gopher_host.specs.Served.{HasGate, IsGate, ServesInRounds, ServesDaily, ServesUnlogged, ReplaysFile, ReplaysInMemory, PrintsScript, RepliesToAll};

use crate::asking::socket_name;
use crate::ending::{all_written, replay_ended, serving_ended};
use crate::fault::Fault;
use crate::opening::{closed, open};
use crate::printing::print_served;
use crate::stopped::StoppedTexts;
use admin_office::{AdminOffice, UnixGate};
use admin_socket::{SocketLog, listen_at};
use command_words::SocketPlace;
use daily_server::{ListenerLog, Stopwatch, Terms};
use file_device::{FileDevice, UsedFiles};
use host_on_disk::SiteOn;
use host_script::small_site;
use host_types::SiteKeeper;
use image_runs::{replay_on, replay_over};
use image_server::{ListenLog, serve_clients, serve_image};
use mem_site::MemSite;
use socket_wires::SystemClock;
use std::alloc::Global;
use std::fs::Files;
use std::io;
use std::io::{BufWriter, Read, Sink, Write};
use std::net::{Net, SocketAddr, TcpListener, TcpStream};
use std::time::Clock as Time;

/// The gate at a socket of this name, which is made.
fn gate_at<R: Files + Net>(rt: &R, sockets: &mut SocketLog, name: &str) -> Result<UnixGate, Fault>
    ensures { IsGate name.now sockets.old.calls sockets.new.calls result }
{
    match listen_at(rt, sockets, name) {
        Ok(listener) => Ok(UnixGate::new(Some(listener))),
        Err(fault) => Err(Fault::Socket(fault)),
    }
}

/// The gate where administrators come to an image, or one to which nobody comes.
fn gate_of<R: Files + Net + AllocGlobal>(
    rt: &R,
    sockets: &mut SocketLog,
    place: SocketPlace<'_>,
    image: &str,
) -> Result<UnixGate, Fault>
    ensures { HasGate place.entry image.now sockets.old.calls sockets.new.calls result }
{
    match place {
        SocketPlace::Nowhere => Ok(UnixGate::new(None)),
        SocketPlace::Named(name) => gate_at(rt, sockets, name),
        SocketPlace::Beside => match socket_name(rt.alloc(), None, image) {
            Ok(name) => gate_at(rt, sockets, &name),
            Err(_) => Err(Fault::of_memory()),
        },
    }
}

/// Serves whoever comes over the site of an image, with a line in the log for each client that has gone.
fn serve_logged<R: Files + Net + Time + AllocGlobal, L: Write>(
    rt: &R,
    used: &mut UsedFiles<'_, HostRuntime>,
    image: &str,
    listen: Option<SocketAddr>,
    terms: Terms,
    place: SocketPlace<'_>,
    sockets: &mut SocketLog,
    asked: &mut ListenerLog,
    log: &mut L,
) -> Result<(), Fault>
    ensures { ServesDaily ⟦<SiteOn<FileDevice> as SiteKeeper>⟧ L.contents listen terms place.entry image.now used.old.log.uses used.new.log.uses sockets.old.calls sockets.new.calls asked.old.calls asked.new.calls log.old log.new result }
{
    let device = open(used, image)?;
    let gate = match gate_of(rt, sockets, place, image) {
        Ok(gate) => gate,
        Err(fault) => {
            used.close(device);
            return Err(fault);
        }
    };
    let (mut watch, mut clock) = (Stopwatch::start(rt), SystemClock::new(rt));
    let mut office = AdminOffice::new(rt.alloc(), gate, StoppedTexts);
    let served = serve_clients(
        rt.alloc(),
        rt,
        device,
        listen,
        asked,
        &mut watch,
        &mut office,
        &mut clock,
        log,
        terms,
    );
    serving_ended(closed(used, served))
}

/// Serves whoever comes over the site of an image, at an address or else the site's port on 127.0.0.1, on these terms, until that can't go on. Administrators come on a socket, if one is wanted.
/// The log gets a line for each client that has gone, unless that is not wanted. What is asked of the system for a listener and for the socket is noted.
pub fn serve<R: Files + Net + Time + AllocGlobal, L: Write>(
    rt: &R,
    used: &mut UsedFiles<'_, HostRuntime>,
    image: &str,
    listen: Option<SocketAddr>,
    quiet: bool,
    terms: Terms,
    place: SocketPlace<'_>,
    sockets: &mut SocketLog,
    asked: &mut ListenerLog,
    log: &mut L,
) -> Result<(), Fault>
    ensures quiet { quiet ≡ true → log.new ≡ log.old }
    ensures logged { quiet ≡ false → ServesDaily ⟦<SiteOn<FileDevice> as SiteKeeper>⟧ L.contents listen terms place.entry image.now used.old.log.uses used.new.log.uses sockets.old.calls sockets.new.calls asked.old.calls asked.new.calls log.old log.new result }
    ensures unlogged { quiet ≡ true → ServesUnlogged ⟦<SiteOn<FileDevice> as SiteKeeper>⟧ ⟦<Sink as Write>⟧.contents listen terms place.entry image.now used.old.log.uses used.new.log.uses sockets.old.calls sockets.new.calls asked.old.calls asked.new.calls result }
{
    if quiet {
        serve_logged(
            rt,
            used,
            image,
            listen,
            terms,
            place,
            sockets,
            asked,
            &mut io::sink(),
        )
    } else {
        serve_logged(rt, used, image, listen, terms, place, sockets, asked, log)
    }
}

/// Serves so many rounds of connections over the site of an image, at the site's port on 127.0.0.1, and prints how many replies were written whole. What is asked of the system for a listener is noted.
pub fn serve_rounds<
    R: Net<Listener = TcpListener, Stream = TcpStream> + Time + AllocGlobal,
    W: Write,
>(
    rt: &R,
    used: &mut UsedFiles<'_, HostRuntime>,
    image: &str,
    together: u32,
    rounds: u32,
    asked: &mut ListenLog,
    writer: &mut W,
) -> Result<(), Fault>
    ensures { ServesInRounds ⟦<SiteOn<FileDevice> as SiteKeeper>⟧ W.contents together rounds image.now used.old.log.uses used.new.log.uses asked.old.calls asked.new.calls writer.old writer.new result }
{
    let device = open(used, image)?;
    let mut clock = SystemClock::new(rt);
    let served = serve_image(rt.alloc(), rt, device, asked, &mut clock, together, rounds);
    print_served(rt.alloc(), closed(used, served), writer)
}

/// A script over the site of an image.
fn replay_image<R: Read, W: Write>(
    alloc: Global,
    used: &mut UsedFiles<'_, HostRuntime>,
    image: &str,
    grouped: bool,
    reader: &mut R,
    writer: &mut W,
) -> Result<(), Fault>
    ensures { ReplaysFile grouped ⟦<SiteOn<FileDevice> as SiteKeeper>⟧ image.now used.old.log.uses used.new.log.uses (R.remaining reader.old) (R.remaining reader.new) (W.contents writer.old) (W.contents writer.new) result }
{
    let device = open(used, image)?;
    let replayed = replay_on(alloc, grouped, device, reader, writer);
    replay_ended(closed(used, replayed))
}

/// The answer that was given beside a site in memory.
fn answer_of<A, E, S: Drop>(given: Result<(A, S), (E, S)>) -> Result<A, E>
    ensures { result ≡ given_beside given }
{
    match given {
        Ok((answer, _)) => Ok(answer),
        Err((fault, _)) => Err(fault),
    }
}

/// A script over a small site in memory.
fn replay_in_memory<R: Read, W: Write>(
    alloc: Global,
    grouped: bool,
    reader: &mut R,
    writer: &mut W,
) -> Result<(), Fault>
    ensures { ReplaysInMemory grouped ⟦<MemSite as SiteKeeper>⟧ (R.remaining reader.old) (R.remaining reader.new) (W.contents writer.old) (W.contents writer.new) result }
{
    let Ok(site) = small_site(alloc) else {
        return Err(Fault::of_memory());
    };
    replay_ended(answer_of(replay_over(alloc, grouped, site, reader, writer)))
}

/// A script over a site in memory, or over that of an image. What was printed before a fault stays printed.
fn replay_from<R: Read, W: Write + Drop>(
    alloc: Global,
    used: &mut UsedFiles<'_, HostRuntime>,
    image: Option<&str>,
    grouped: bool,
    reader: &mut R,
    writer: &mut BufWriter<W>,
) -> Result<(), Fault>
    ensures image { IfSome image.entry (λ i. PrintsScript (ReplaysFile grouped ⟦<SiteOn<FileDevice> as SiteKeeper>⟧ i.now used.old.log.uses used.new.log.uses) R.remaining W.contents reader.old reader.new writer.old writer.new result) }
    ensures memory { image.entry ≡ None → (used.new.log.uses ≡ used.old.log.uses) × PrintsScript (ReplaysInMemory grouped ⟦<MemSite as SiteKeeper>⟧) R.remaining W.contents reader.old reader.new writer.old writer.new result }
{
    let ended = match image {
        Some(image) => replay_image(alloc, used, image, grouped, reader, writer),
        None => replay_in_memory(alloc, grouped, reader, writer),
    };
    let written = writer.flush();
    all_written(ended, written)
}

/// A script on standard input over a site in memory, or over that of an image, in which posts wait for one another or don't. What was printed before a fault stays printed.
pub fn replay(
    rt: &HostRuntime,
    used: &mut UsedFiles<'_, HostRuntime>,
    image: Option<&str>,
    grouped: bool,
) -> Result<(), Fault>
    ensures image { IfSome image.entry (λ i. RepliesToAll (used.new.log.uses ≡ used.old.log.uses) (ReplaysFile grouped ⟦<SiteOn<FileDevice> as SiteKeeper>⟧ i.now used.old.log.uses used.new.log.uses) result) }
    ensures memory { image.entry ≡ None → (used.new.log.uses ≡ used.old.log.uses) × RepliesToAll (Unit {0}) (ReplaysInMemory grouped ⟦<MemSite as SiteKeeper>⟧) result }
{
    let Ok(mut writer) = BufWriter::new(rt.alloc(), io::writer(rt)) else {
        return Err(Fault::of_memory());
    };
    replay_from(
        rt.alloc(),
        used,
        image,
        grouped,
        &mut rt.reader(),
        &mut writer,
    )
}
