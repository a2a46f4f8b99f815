// What the words behind each command ask for.
ghost use Rattle.std.specs.Prelude.{◌≡◌, IfOk, ℕ, codes};
ghost use Rattle.clap.specs.Words.{found_of, rows_of};
ghost use Rattle.command_words.specs.Tasks.{AsksFor, AsksToServe, GivesOne, HasAddress, HasFlag, HasNumber, HasNumberIfAny, HasNumberOr, HasPlace, IsSiteIn};

use crate::words::{NewSite, SocketPlace, Task};
use clap::ArgMatches;
use std::alloc::{AllocError, Global};
use std::net::SocketAddr;

/// How many clients of one address are let in at a time, where no number is given.
const MOST_PER_ADDRESS: u32 = 8;

fn new_site<'a>(matches: &ArgMatches<'a>) -> Option<NewSite<'a>>
    ensures { GivesOne (IsSiteIn (rows_of (found_of matches.now))) result }
{
    Some(NewSite {
        host: matches.get_str("host")?,
        port: matches.get_one::<u16>("port")?,
        admin: matches.get_str("admin")?,
        title: matches.get_str("title")?,
    })
}

/// How many clients of one address are let in at a time.
fn per_address(matches: &ArgMatches<'_>) -> u32
    ensures { HasNumberOr 8 (rows_of (found_of matches.now)) (codes "per-address") 32 result }
{
    match matches.get_one::<u32>("per-address") {
        Some(most) => most,
        None => MOST_PER_ADDRESS,
    }
}

/// How many posts of one address are taken in a minute, where that is limited.
fn posts_a_minute(matches: &ArgMatches<'_>) -> Option<u32>
    ensures { GivesOne (HasNumber (rows_of (found_of matches.now)) (codes "posts-per-minute") 32) result }
{
    matches.get_one::<u32>("posts-per-minute")
}

/// How many pages an image is to have.
fn pages(matches: &ArgMatches<'_>) -> Option<u32>
    ensures { GivesOne (HasNumber (rows_of (found_of matches.now)) (codes "pages") 32) result }
{
    matches.get_one::<u32>("pages")
}

/// The moment that is given, or that none is; nothing where what is given is no number.
fn moment(matches: &ArgMatches<'_>) -> Option<Option<u64>>
    ensures { GivesOne (HasNumberIfAny (rows_of (found_of matches.now)) (codes "now") 64) result }
{
    match matches.get_str("now") {
        Some(_) => Some(Some(matches.get_one::<u64>("now")?)),
        None => Some(None),
    }
}

/// Where administrators are to come.
fn socket_place<'a>(matches: &ArgMatches<'a>) -> SocketPlace<'a>
    ensures { HasPlace (rows_of (found_of matches.now)) result }
{
    if matches.get_flag("no-admin") {
        return SocketPlace::Nowhere;
    }
    match matches.get_str("admin") {
        Some(name) => SocketPlace::Named(name),
        None => SocketPlace::Beside,
    }
}

/// Which image is to be made.
fn format_task<'a>(matches: &ArgMatches<'a>) -> Option<Task<'a>>
    ensures { GivesOne (AsksFor (codes "format") (rows_of (found_of matches.now))) result }
{
    Some(Task::Format {
        image: matches.get_str("IMAGE")?,
        site: new_site(matches)?,
        pages: pages(matches)?,
        now: moment(matches)?,
    })
}

/// Which image is to be made in a file that is not there.
fn init_task<'a>(matches: &ArgMatches<'a>) -> Option<Task<'a>>
    ensures { GivesOne (AsksFor (codes "init") (rows_of (found_of matches.now))) result }
{
    Some(Task::Init {
        image: matches.get_str("IMAGE")?,
        site: new_site(matches)?,
        pages: pages(matches)?,
        now: moment(matches)?,
    })
}

/// Which changes are to be made.
fn apply_task<'a>(matches: &ArgMatches<'a>) -> Option<Task<'a>>
    ensures { GivesOne (AsksFor (codes "apply") (rows_of (found_of matches.now))) result }
{
    Some(Task::Apply {
        image: matches.get_str("IMAGE")?,
        file: matches.get_str("FILE")?,
        now: moment(matches)?,
        socket: matches.get_str("admin"),
    })
}

/// Which document is to be written.
fn get_task<'a>(matches: &ArgMatches<'a>) -> Option<Task<'a>>
    ensures { GivesOne (AsksFor (codes "get") (rows_of (found_of matches.now))) result }
{
    Some(Task::Get {
        image: matches.get_str("IMAGE")?,
        selector: matches.get_str("SELECTOR")?,
        view: matches.get_str("view"),
    })
}

/// Of which board the posts are to be listed.
fn posts_task<'a>(matches: &ArgMatches<'a>) -> Option<Task<'a>>
    ensures { GivesOne (AsksFor (codes "posts") (rows_of (found_of matches.now))) result }
{
    Some(Task::Posts {
        image: matches.get_str("IMAGE")?,
        board: matches.get_str("BOARD")?,
    })
}

/// Which items are to be listed.
fn show_task<'a>(matches: &ArgMatches<'a>) -> Option<Task<'a>>
    ensures { GivesOne (AsksFor (codes "show") (rows_of (found_of matches.now))) result }
{
    Some(Task::Show {
        image: matches.get_str("IMAGE")?,
        long: matches.get_flag("long"),
    })
}

/// Which items are to be written as changes.
fn export_task<'a>(matches: &ArgMatches<'a>) -> Option<Task<'a>>
    ensures { GivesOne (AsksFor (codes "export") (rows_of (found_of matches.now))) result }
{
    let image = matches.get_str("IMAGE")?;
    Some(Task::Export { image })
}

/// Which folder is to be written as changes.
fn import_task<'a>(matches: &ArgMatches<'a>) -> Option<Task<'a>>
    ensures { GivesOne (AsksFor (codes "import") (rows_of (found_of matches.now))) result }
{
    Some(Task::Import {
        folder: matches.get_str("FOLDER")?,
        under: matches.get_str("under"),
    })
}

/// Which image is to be counted.
fn check_task<'a>(matches: &ArgMatches<'a>) -> Option<Task<'a>>
    ensures { GivesOne (AsksFor (codes "check") (rows_of (found_of matches.now))) result }
{
    let image = matches.get_str("IMAGE")?;
    Some(Task::Check { image })
}

/// Which image is to be written anew.
fn compact_task<'a>(matches: &ArgMatches<'a>) -> Option<Task<'a>>
    ensures { GivesOne (AsksFor (codes "compact") (rows_of (found_of matches.now))) result }
{
    let image = matches.get_str("IMAGE")?;
    Some(Task::Compact { image })
}

/// Which older image is to be taken over.
fn upgrade_task<'a>(matches: &ArgMatches<'a>) -> Option<Task<'a>>
    ensures { GivesOne (AsksFor (codes "upgrade") (rows_of (found_of matches.now))) result }
{
    let image = matches.get_str("IMAGE")?;
    Some(Task::Upgrade { image })
}

/// Which site is to be written as a new image.
fn copy_task<'a>(matches: &ArgMatches<'a>) -> Option<Task<'a>>
    ensures { GivesOne (AsksFor (codes "copy") (rows_of (found_of matches.now))) result }
{
    Some(Task::Copy {
        image: matches.get_str("IMAGE")?,
        new: matches.get_str("NEW")?,
        pages: pages(matches),
    })
}

/// Over which site a script is to be run.
fn replay_task<'a>(matches: &ArgMatches<'a>) -> Option<Task<'a>>
    ensures { GivesOne (AsksFor (codes "replay") (rows_of (found_of matches.now))) result }
{
    Some(Task::Replay {
        image: matches.get_str("IMAGE"),
        group: matches.get_flag("group"),
    })
}

/// The address at which to listen, or that none is given; nothing where what is given is no address.
fn address(matches: &ArgMatches<'_>) -> Option<Option<SocketAddr>>
    ensures { GivesOne (HasAddress (rows_of (found_of matches.now)) (codes "listen")) result }
{
    let Some(address) = matches.get_str("listen") else {
        return Some(None);
    };
    Some(Some(address.parse::<SocketAddr>().ok()?))
}

/// Whether no log is to be written.
fn is_quiet(matches: &ArgMatches<'_>) -> bool
    ensures { HasFlag (rows_of (found_of matches.now)) (codes "quiet") result }
{
    matches.get_flag("quiet")
}

/// Whether clients are to be taken for old ones.
fn for_old_clients(matches: &ArgMatches<'_>) -> bool
    ensures { HasFlag (rows_of (found_of matches.now)) (codes "old-clients") result }
{
    matches.get_flag("old-clients")
}

/// Whether the log is to be in the common log format.
fn in_common_log(matches: &ArgMatches<'_>) -> bool
    ensures { HasFlag (rows_of (found_of matches.now)) (codes "common-log") result }
{
    matches.get_flag("common-log")
}

/// How whoever comes is to be served, where no number of rounds is given.
fn serving_clients<'a>(image: &'a str, matches: &ArgMatches<'a>) -> Option<Task<'a>>
    ensures { ((n : ℕ) → ¬ (HasNumber (rows_of (found_of matches.now)) (codes "rounds") 32 n)) → GivesOne (AsksToServe image.entry.now (rows_of (found_of matches.now))) result }
{
    Some(Task::ServeClients {
        image,
        listen: address(matches)?,
        quiet: is_quiet(matches),
        per_address: per_address(matches),
        posts: posts_a_minute(matches),
        old_clients: for_old_clients(matches),
        common_log: in_common_log(matches),
        place: socket_place(matches),
    })
}

/// How an image is to be served.
fn serving<'a>(image: &'a str, matches: &ArgMatches<'a>) -> Option<Task<'a>>
    ensures { GivesOne (AsksToServe image.entry.now (rows_of (found_of matches.now))) result }
{
    let Some(rounds) = matches.get_one::<u32>("rounds") else {
        return serving_clients(image, matches);
    };
    Some(Task::ServeRounds {
        image,
        together: matches.get_one::<u32>("together")?,
        rounds,
    })
}

/// Which image is to be served.
fn serve_task<'a>(matches: &ArgMatches<'a>) -> Option<Task<'a>>
    ensures { GivesOne (AsksFor (codes "serve") (rows_of (found_of matches.now))) result }
{
    serving(matches.get_str("IMAGE")?, matches)
}

/// Which items are to be removed.
fn removing<'a>(alloc: Global, matches: &ArgMatches<'a>) -> Result<Option<Task<'a>>, AllocError>
    ensures { IfOk result (GivesOne (AsksFor (codes "drop") (rows_of (found_of matches.now)))) }
{
    let Some(image) = matches.get_str("IMAGE") else {
        return Ok(None);
    };
    let Some(found) = matches.get_strs("SELECTOR") else {
        return Ok(None);
    };
    let mut selectors = Vec::new(alloc);
    selectors.extend_from_slice(found)?;
    let socket = matches.get_str("admin");
    Ok(Some(Task::Remove {
        image,
        selectors,
        socket,
    }))
}

/// What the words behind a command ask for, but for the one that removes items.
fn other_task_of<'a>(name: &str, matches: &ArgMatches<'a>) -> Option<Task<'a>>
    ensures { (name.now ≡ codes "drop" → ⊥) → GivesOne (AsksFor name.now (rows_of (found_of matches.now))) result }
{
    match name {
        "format" => format_task(matches),
        "init" => init_task(matches),
        "apply" => apply_task(matches),
        "get" => get_task(matches),
        "posts" => posts_task(matches),
        "show" => show_task(matches),
        "export" => export_task(matches),
        "import" => import_task(matches),
        "check" => check_task(matches),
        "compact" => compact_task(matches),
        "upgrade" => upgrade_task(matches),
        "copy" => copy_task(matches),
        "replay" => replay_task(matches),
        "serve" => serve_task(matches),
        _ => None,
    }
}

/// What the words behind a command ask for.
pub fn task_of<'a>(
    alloc: Global,
    name: &str,
    matches: &ArgMatches<'a>,
) -> Result<Option<Task<'a>>, AllocError>
    ensures { IfOk result (GivesOne (AsksFor name.now (rows_of (found_of matches.now)))) }
{
    if name == "drop" {
        return removing(alloc, matches);
    }
    Ok(other_task_of(name, matches))
}
