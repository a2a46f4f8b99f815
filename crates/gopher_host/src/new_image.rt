// Makes an image in a file.
ghost use Rattle.std.specs.Prelude.{◌≡◌, ◌<◌, Err, OnOk, IfOk, IfErr};
ghost use Rattle.std.specs.String.{string_bytes};
ghost use Rattle.image_commands.specs.Lines as lines;
ghost use Rattle.image_commands.specs.declared.fault.ImageFault.{ImageFault as Refusal};
ghost use Rattle.gopher_host.specs.NewImages as spec;
ghost use Rattle.gopher_host.specs.NewImages.{IsNewImage, IsNoNewImage};

use command_words::NewSite;
use file_device::UsedFiles;
use host_types::{Refused, Stamp};
use image_commands::{ImageFault, SiteNames, format_image, formatted_line, sectors_of};
use std::alloc::Global;

/// The moment of so many seconds since 1970-01-01, of which the words of the command line give no others.
pub fn moment(seconds: u64) -> Result<Stamp, ImageFault>
    ensures { result ≡ spec.moment_of seconds }
{
    Ok(Stamp::new(seconds)?)
}

/// The names of a new site, or the first that it can't have: a port of 0, and then the names.
fn names_for(site: NewSite<'_>) -> Result<SiteNames, ImageFault>
    ensures names { result ≡ spec.names_for site.entry }
    ensures port { OnOk result (0 < site.entry.port) }
{
    if site.port == 0 {
        return Err(ImageFault::Refused(Refused::BadName));
    }
    let host = site.host.as_bytes();
    Ok(SiteNames::new(host, site.admin.as_bytes(), site.title.as_bytes())?)
}

/// The names of a new site, and how many sectors its image has; or the first thing that is wrong with them.
fn asked_for(site: NewSite<'_>, pages: u32) -> Result<(SiteNames, u64), ImageFault>
    ensures asked { result ≡ spec.asked_for site.entry pages }
    ensures port { OnOk result (0 < site.entry.port) }
{
    let names = names_for(site)?;
    let sectors = sectors_of(pages)?;
    Ok((names, sectors))
}

/// Makes an image in a file, and gives the line to print. The file is made where it isn't there; it is not looked at where the names or the count of pages are wrong.
pub fn made(
    alloc: Global,
    used: &mut UsedFiles<'_, HostRuntime>,
    image: &str,
    site: NewSite<'_>,
    pages: u32,
    now: Stamp,
) -> Result<String, ImageFault>
    ensures asked { (e : Refusal) → spec.asked_for site.entry pages ≡ Err e → (result ≡ Err e) × (used.new.log.uses ≡ used.old.log.uses) }
    ensures line { IfOk result (λ line. string_bytes line ≡ lines.formatted_line pages) }
    ensures made { OnOk result (IsNewImage image.now site.entry pages now used.old.log.uses used.new.log.uses) }
    ensures fault { IfErr result (IsNoNewImage (spec.asked_for site.entry pages) image.now pages used.old.log.uses used.new.log.uses) }
{
    let (names, sectors) = asked_for(site, pages)?;
    let line = formatted_line(alloc, pages)?;
    let mut device = used.create(image, sectors)?;
    let formatted = format_image(alloc, &mut device, pages, names, site.port, now);
    used.close(device);
    match formatted {
        Ok(()) => Ok(line),
        Err(fault) => Err(ImageFault::from(fault)),
    }
}
