// Serves connections over a site that is handed in, and over the site of an image.
ghost use Rattle.std.specs.Prelude.{◌≡◌, true, [], None, IfOk, IfErr, OnOk, IsTrue};
ghost use Rattle.host_types.specs.Site.{IsSite};
ghost use Rattle.page_store.specs.Steps.{crash_states_of};
ghost use Rattle.host_on_disk.specs.OpenFaults.{HandsBack};
ghost use Rattle.image_server.specs.Serving.{ServedOver, ServedImage, IsServingFault};
ghost use Rattle.image_server.specs.DailyServing.{IsListened, IsAskedInVain};
ghost use Rattle.image_server.specs.declared.listening.ListenCall.TheVariants.{Listened, NotListened};

use crate::daily_serving::given_or_own;
use crate::listening::{ListenLog, listen};
use daily_server::NetCause;
use group_hub::Hub;
use host_on_disk::{OpenFault, SiteOn, open_site};
use host_types::SiteKeeper;
use sector_device::Device;
use socket_wires::{Gate, ServeFault, serve_on};
use std::alloc::Global;
use std::net::{Net, SocketAddr, TcpListener, TcpStream};
use turns::Clock;
use word_search::SearchKeeper;

/// Why nothing is served, or serving ended.
#[derive(Clone, Copy, Debug, PartialEq, Eq)]
pub enum ServingFault {
    /// The image is not opened as a site.
    Image(OpenFault),
    /// This address can't be listened on, and why.
    Listener(SocketAddr, NetCause),
    /// No socket could be waited for.
    Net,
}

/// Serves so many rounds of connections over a valid site in one hub, in which posts wait for one another and whose sessions count from 1, and hands the site back. `Memory` comes before the first connection.
pub fn serve_over<S: SearchKeeper, C: Clock>(
    alloc: Global,
    site: S,
    gate: &mut Gate,
    clock: &mut C,
    together: u32,
    rounds: u32,
) -> Result<(Result<u64, ServeFault>, S), (OpenFault, S)>
    requires usable { (S.site_state site).usable ≡ true }
    requires unpinned { (S.site_state site).pins ≡ [] }
    requires valid { IsTrue (S.site_state site).honest → ∥ IsSite (S.site_state site).site ∥₁ }
    ensures served { IfOk result (λ r. ServedOver S.SiteKeeper together rounds r.0 gate.old.taken.calls gate.new.taken.calls site r.1 (C.given clock.old) (C.given clock.new)) }
    ensures unpinned { IfOk result (λ r. (S.site_state r.1).pins ≡ []) }
    ensures err { IfErr result (λ e. (e.0 ≡ OpenFault.Memory) × (e.1 ≡ site)) }
    ensures untold { IfErr result (λ e. (clock.new ≡ clock.old) × (gate.new ≡ gate.old)) }
{
    let mut hub = match Hub::grouped(alloc, site, 1) {
        Ok(hub) => hub,
        Err((_, site)) => return Err((OpenFault::Memory, site)),
    };
    let served = serve_on(alloc, gate, &mut hub, clock, together, rounds);
    Ok((served, hub.close()))
}

/// Opens the image on a device, serves so many rounds of connections over its site, at the site's port on 127.0.0.1, and hands the device back. It answers how many replies were written whole.
///
/// What a crash at any moment leaves on the device represents the site after the first so many commits of the events that the connections made, with each that was acknowledged by
/// then. What is asked of the system for a listener is noted.
pub fn serve_image<D: Device, R: Net<Listener = TcpListener, Stream = TcpStream>, C: Clock>(
    alloc: Global,
    net: &R,
    device: D,
    asked: &mut ListenLog,
    clock: &mut C,
    together: u32,
    rounds: u32,
) -> Result<(Result<u64, ServeFault>, D), (ServingFault, D)>
    ensures served { IfOk result (λ r. ServedImage ⟦<SiteOn<D> as SiteKeeper>⟧ together rounds r.0 device r.1 (C.given clock.old) (C.given clock.new)) }
    ensures listened { OnOk result (IsListened Listened (D.state device) None asked.old.calls asked.new.calls) }
    ensures asked { IfErr result (λ e. IsAskedInVain Listened NotListened (D.state device) None asked.old.calls asked.new.calls e.0) }
    ensures refused { IfErr result (λ e. HandsBack IsServingFault D.state (crash_states_of D.moment D.possible_since) device e.1 e.0) }
    ensures untold { IfErr result (λ e. clock.new ≡ clock.old) }
{
    let site = match open_site(alloc, device) {
        Ok(site) => site,
        Err((fault, device)) => return Err((ServingFault::Image(fault), device)),
    };
    let at = given_or_own(None, site.front().port);
    let mut gate = match listen(net, at, asked) {
        Ok(gate) => gate,
        Err(cause) => return Err((
            ServingFault::Listener(at, cause),
            site.into_keeper().into_device(),
        )),
    };
    match serve_over(alloc, site, &mut gate, clock, together, rounds) {
        Ok((served, site)) => Ok((served, site.into_keeper().into_device())),
        Err((fault, site)) => Err((ServingFault::Image(fault), site.into_keeper().into_device())),
    }
}
