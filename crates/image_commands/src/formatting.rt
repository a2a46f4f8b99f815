// Making an image.
ghost use Rattle.std.specs.Prelude.{◌≡◌, ◌≢◌, ◌≤◌, ◌<◌, ◌*◌, IsTrue, IfOk, OnOk, IfErr};
ghost use Rattle.std.specs.String.{string_bytes};
ghost use Rattle.page_store.specs.Sizes.{least_pages, most_pages};
ghost use Rattle.sector_device.specs.Device.{NothingCounted};
ghost use Rattle.sector_device.specs.Effects.{IsSameDevice};
ghost use Rattle.page_store.specs.Steps.{crash_states_of, AllAre};
ghost use Rattle.page_store.specs.Formatting.{IsFormatFault};
ghost use Rattle.page_store.specs.declared.fault.KeeperFault.TheVariants.{Failed};
ghost use Rattle.image_commands.specs.Formatted as spec;
ghost use Rattle.image_commands.specs.Formatted.{IsFormatted, first_site};
ghost use Rattle.image_commands.specs.Lines as lines;

use crate::SiteNames;
use cow_tree::format;
use host_types::Stamp;
use page_store::{Banner, KeeperFault, LEAST_PAGES, MOST_PAGES};
use sector_device::Device;
use site_pairs::first_pairs;
use site_store::VERSION;
use std::alloc::{AllocError, Global};

/// How many sectors an image of so many pages has; `Small` where that is outside 16 to 65,536.
pub fn sectors_of(pages: u32) -> Result<u64, KeeperFault>
    ensures { result ≡ spec.sectors_of pages }
{
    if pages < LEAST_PAGES || pages > MOST_PAGES {
        return Err(KeeperFault::Small);
    }
    Ok(8 * u64::from(pages))
}

/// Makes an image of so many pages, whose site has only a top menu, without entries. What was on the device is gone.
///
/// `Small` where the count of pages isn't 16 to 65,536 or the device hasn't eight sectors for each, and `Memory`, come before the first write and leave the
/// device as it is; `Failed` where a write or a sync failed. A crash within the call may leave anything.
pub fn format_image<D: Device>(
    alloc: Global,
    device: &mut D,
    pages: u32,
    names: SiteNames,
    port: u16,
    now: Stamp,
) -> Result<(), KeeperFault>
    requires port { 0 < port }
    ensures made { IsTrue (D.state device.old).honest → OnOk result (IsFormatted (D.state device.new).disk.view pages (first_site names port now)) }
    ensures sure { IsTrue (D.state device.old).honest → OnOk result (AllAre (crash_states_of D.moment D.possible_since device.new) (D.state device.new).disk.view) }
    ensures fits { OnOk result ((least_pages ≤ pages) × (pages ≤ most_pages) × (8 * pages ≤ (D.state device.old).size)) }
    ensures fault { IfErr result (IsFormatFault pages (D.state device.old) (D.state device.new)) }
    ensures counts { OnOk result (NothingCounted (D.state device.old) (D.state device.new)) }
    ensures unwritten { IfErr result (λ e. e ≢ Failed → device.new ≡ device.old) }
    ensures same { IsSameDevice (D.state device.old) (D.state device.new) }
{
    let SiteNames { host, admin, title } = names;
    let _ = host.as_bytes();
    let _ = admin.as_bytes();
    let _ = title.as_bytes();
    let _ = now.seconds();
    let pairs = first_pairs(alloc, &title, now)?;
    let banner = Banner {
        version: VERSION,
        host,
        port,
        admin,
    };
    format(alloc, device, pages, banner, &pairs)
}

/// The line of an image that was made, without its LF.
pub fn formatted_line(alloc: Global, pages: u32) -> Result<String, AllocError>
    ensures { IfOk result (λ t. string_bytes t ≡ lines.formatted_line pages) }
{
    format!(in alloc; "formatted {pages} pages")
}
