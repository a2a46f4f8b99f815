//! A host of a Gopher site, as a program.
#![tactic(auto)]

ghost use Rattle.std.specs.Prelude.{◌≡◌, OnOk, IfOk, IfErr, IsOkAnd};
ghost use Rattle.std.specs.Process.{exit_status};
ghost use Rattle.gopher_host.specs.Clock.{IfNoMoment};
ghost use Rattle.gopher_host.specs.Faults.{TellsFault};
ghost use Rattle.gopher_host.specs.Tasks.{RunsCommand, RunsSessions, form_of_log};

mod advice;
mod asking;
mod clock;
mod commands;
mod copying;
mod ending;
mod fault;
mod holding;
mod importing;
mod items;
mod lacking;
mod naming;
mod new_image;
mod opening;
mod printing;
mod progress;
mod reading;
mod refused_words;
mod removing;
mod saying;
mod sessions;
mod stopped;

use admin_socket::SocketLog;
use clock::{moment_now, seconds_of};
use command_words::{Task, given, read};
use daily_server::{ListenerLog, LogForm, Terms};
use fault::Fault;
use file_device::{FileDevice, UsedFiles};
use file_names::NameLog;
use host_on_disk::SiteOn;
use host_types::SiteKeeper;
use image_server::ListenLog;
use lacking::{explained, image_of, makes_image};
use refused_words::{refused_word, with_word};
use socket_wires::SystemClock;
use std::alloc::Global;
use std::io;
use std::io::{Sink, Write};
use std::process::ExitCode;

/// On what terms clients come in.
fn terms_of(most: u32, posts: Option<u32>, old_clients: bool, common_log: bool) -> Terms
    ensures { result ≡ record { most = most; posts = posts; old_clients = old_clients; log = form_of_log common_log } }
{
    let log = if common_log {
        LogForm::Common
    } else {
        LogForm::Own
    };
    Terms {
        most,
        posts,
        old_clients,
        log,
    }
}

/// Does a task, and prints on the writer what it prints. The clock tells the moment of a change where none is given. The log is where clients are told of that have gone.
fn run<W: Write, L: Write>(
    rt: &HostRuntime,
    task: Task<'_>,
    used: &mut UsedFiles<'_, HostRuntime>,
    clock: &mut SystemClock<'_, HostRuntime>,
    writer: &mut W,
    log: &mut L,
) -> Result<(), Fault>
    ensures command { RunsCommand W.contents task.entry clock.old.read.readings clock.new.read.readings used.old.log.uses used.new.log.uses writer.old writer.new result }
    ensures unread { IfNoMoment task.entry (clock.new.read.readings ≡ clock.old.read.readings) }
    ensures sessions { RunsSessions ⟦<SiteOn<FileDevice> as SiteKeeper>⟧ W.contents L.contents ⟦<Sink as Write>⟧.contents task.entry used.old.log.uses used.new.log.uses writer.old writer.new log.old log.new result }
{
    match task {
        Task::Format {
            image,
            site,
            pages,
            now,
        } => {
            let now = seconds_of(now, clock);
            commands::format(rt.alloc(), used, image, site, pages, now, writer)
        }
        Task::Apply {
            image,
            file,
            now,
            socket,
        } => {
            let now = seconds_of(now, clock);
            let sockets = &mut SocketLog::new();
            commands::apply(rt, used, image, file, now, socket, sockets, writer)
        }
        Task::Init {
            image,
            site,
            pages,
            now,
        } => {
            let now = seconds_of(now, clock);
            let names = &mut NameLog::new();
            commands::init(rt, used, names, image, site, pages, now, writer)
        }
        Task::Get {
            image,
            selector,
            view,
        } => {
            let sockets = &mut SocketLog::new();
            items::get(rt, used, image, selector, view, sockets, writer)
        }
        Task::Posts { image, board } => {
            let sockets = &mut SocketLog::new();
            items::posts(rt, used, image, board, sockets, writer)
        }
        Task::Remove {
            image,
            selectors,
            socket,
        } => {
            let now = moment_now(clock);
            let sockets = &mut SocketLog::new();
            items::remove(rt, used, image, &selectors, now, socket, sockets, writer)
        }
        Task::Show { image, long } => {
            let sockets = &mut SocketLog::new();
            commands::show(rt, used, image, long, sockets, writer)
        }
        Task::Export { image } => {
            let sockets = &mut SocketLog::new();
            commands::export(rt, used, image, sockets, writer)
        }
        Task::Import { folder, under } => importing::import(rt, folder, under, writer),
        Task::Check { image } => {
            let sockets = &mut SocketLog::new();
            commands::check(rt, used, image, sockets, writer)
        }
        Task::Compact { image } => commands::compact(rt.alloc(), used, image, writer),
        Task::Upgrade { image } => commands::upgrade(rt.alloc(), used, image, writer),
        Task::Replay { image, group } => sessions::replay(rt, used, image, group),
        Task::ServeRounds {
            image,
            together,
            rounds,
        } => sessions::serve_rounds(
            rt,
            used,
            image,
            together,
            rounds,
            &mut ListenLog::new(),
            writer,
        ),
        Task::ServeClients {
            image,
            listen: at,
            quiet,
            per_address: most,
            posts,
            old_clients,
            common_log,
            place,
        } => sessions::serve(
            rt,
            used,
            image,
            at,
            quiet,
            terms_of(most, posts, old_clients, common_log),
            place,
            &mut SocketLog::new(),
            &mut ListenerLog::new(),
            log,
        ),
        Task::Copy { image, new, pages } => {
            let (names, sockets) = (&mut NameLog::new(), &mut SocketLog::new());
            copying::copy(rt, used, names, sockets, image, new, pages, writer)
        }
    }
}

/// The status by which a task ends: 0 where it is done, and 1 where its fault is told.
fn status<L: Write>(alloc: Global, ended: Result<(), Fault>, log: &mut L) -> io::Result<ExitCode>
    ensures done { OnOk ended (IsOkAnd result (λ code. exit_status code ≡ 0) × (log.new ≡ log.old)) }
    ensures fault { IfErr ended (λ e. IfOk result (λ code. (exit_status code ≡ 1) × TellsFault e (L.contents log.old) (L.contents log.new))) }
{
    match ended {
        Ok(()) => Ok(ExitCode::SUCCESS),
        Err(fault) => fault.tell(alloc, log),
    }
}

fn main(rt: HostRuntime) -> io::Result<ExitCode> {
    let words = match given(&rt) {
        Ok(words) => words,
        Err(misread) => return misread.tell(&rt),
    };
    let task = match read(rt.alloc(), &words) {
        Ok(task) => task,
        Err(misread) => return misread.tell(&rt),
    };
    let (image, makes) = (image_of(&task), makes_image(&task));
    let word = refused_word(&task);
    let mut used = UsedFiles::new(&rt);
    let mut clock = SystemClock::new(&rt);
    let ended = run(
        &rt,
        task,
        &mut used,
        &mut clock,
        &mut io::writer(&rt),
        &mut rt.stderr(),
    );
    let ended = explained(&rt, &mut NameLog::new(), image, makes, ended);
    let ended = with_word(word, ended);
    status(rt.alloc(), ended, &mut rt.stderr())
}
