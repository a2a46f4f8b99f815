// The entries of a menu that the lines of a gophermap say.
ghost use Rattle.std.specs.Prelude.{◌≡◌, ◌⊎◌, Ok, Err, IfOk, IfErr};
ghost use Rattle.folder_import.specs.Entries as spec;
ghost use Rattle.folder_import.specs.declared.fault.ImportFault.TheVariants.{Memory};
ghost use Rattle.gophermap.specs.Seen.{line_seen};

use crate::ImportFault;
use crate::selectors::resolved;
use gophermap::Line;
use host_types::{Entry, Host, LinkKind, Selector, Title, Url};
use std::alloc::Global;

fn info(title: &[u8]) -> Result<Option<Entry>, ImportFault>
    ensures { result ≡ spec.info title.now }
{
    Ok(Some(Entry::Info(Title::new(title)?)))
}

fn link(title: &[u8], url: &[u8]) -> Result<Option<Entry>, ImportFault>
    ensures { result ≡ spec.link title.now url.now }
{
    Ok(Some(Entry::Url {
        title: Title::new(title)?,
        url: Url::new(url)?,
    }))
}

fn remote(
    kind: LinkKind,
    title: &[u8],
    selector: &[u8],
    host: &[u8],
    port: u16,
) -> Result<Option<Entry>, ImportFault>
    ensures { result ≡ spec.remote kind title.now selector.now host.now port }
{
    Ok(Some(Entry::Remote {
        kind,
        title: Title::new(title)?,
        selector: Selector::new(selector)?,
        host: Host::new(host)?,
        port,
    }))
}

fn local(
    alloc: Global,
    top: &Selector,
    folder: &Selector,
    selector: &[u8],
) -> Result<Option<Entry>, ImportFault>
    ensures said { IfOk result (λ e. spec.local top.now folder.now selector.now ≡ Ok e) }
    ensures fault { IfErr result (λ e. (e ≡ Memory) ⊎ (spec.local top.now folder.now selector.now ≡ Err e)) }
{
    Ok(Some(Entry::Local(resolved(alloc, top, folder, selector)?)))
}

/// The entry that a line of a folder's gophermap says, where it says one. Of the lines that name an item of this site the type is not looked at: a menu shows that of the item.
pub fn entry_of(
    alloc: Global,
    top: &Selector,
    folder: &Selector,
    line: &Line<'_>,
) -> Result<Option<Entry>, ImportFault>
    ensures said { IfOk result (λ e. spec.entry_of top.now folder.now (line_seen line.now) ≡ Ok e) }
    ensures fault { IfErr result (λ e. (e ≡ Memory) ⊎ (spec.entry_of top.now folder.now (line_seen line.now) ≡ Err e)) }
{
    match line {
        Line::Info(title) => info(title),
        Line::Link { title, url } => link(title, url),
        Line::Entry {
            kind,
            title,
            selector,
            place,
        } => match (place.host, place.port) {
            (None, None) => local(alloc, top, folder, selector),
            (Some(host), Some(port)) => remote(*kind, title, selector, host, port),
            _ => Err(ImportFault::Place),
        },
        Line::Title(_) | Line::Comment | Line::Listing | Line::End => Ok(None),
    }
}
