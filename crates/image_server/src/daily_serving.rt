// Serves whoever comes, over a site that is handed in, and over the site of an image.
ghost use Rattle.std.specs.Prelude.{◌≡◌, true, [], IfOk, IfErr, OnErr, OnOk, IsTrue};
ghost use Rattle.host_types.specs.Site.{IsSite};
ghost use Rattle.page_store.specs.Steps.{crash_states_of};
ghost use Rattle.host_on_disk.specs.OpenFaults.{HandsBack};
ghost use Rattle.daily_server.specs.ListenerCalls.{Listened, NotListened};
ghost use Rattle.image_server.specs.Serving.{IsServingFault, of_daily};
ghost use Rattle.image_server.specs.DailyServing.{IsGivenOrOwn, ClientsServedOver, ClientsServedOnImage, IsListened, IsAskedInVain};

use crate::ServingFault;
use crate::starting::tell_start;
use daily_server::{
    DailyFault, ListenFault, ListenerLog, Office, Service, Stopwatch, Terms, serve_in_hub,
};
use group_hub::Hub;
use host_on_disk::{OpenFault, SiteOn, open_site};
use host_types::SiteKeeper;
use page_store::KeeperFault;
use sector_device::Device;
use std::alloc::Global;
use std::io::Write;
use std::net::{IpAddr, Ipv4Addr, Net, SocketAddr};
use std::time::Clock as Time;
use turns::Clock;
use word_search::SearchKeeper;

impl From<DailyFault> for ServingFault {
    ghost from_gives = { λ daily fault. fault ≡ of_daily daily };

    fn from(fault: DailyFault) -> Self {
        match fault {
            DailyFault::Net => ServingFault::Net,
            DailyFault::Failed => ServingFault::Image(OpenFault::Keeper(KeeperFault::Failed)),
            DailyFault::Memory => ServingFault::Image(OpenFault::Memory),
        }
    }
}

/// Where connections are listened for: at an address that is given, or else at a site's own port on 127.0.0.1.
pub(crate) fn given_or_own(address: Option<SocketAddr>, port: u16) -> SocketAddr
    ensures { IsGivenOrOwn address port result }
{
    match address {
        Some(address) => address,
        None => SocketAddr::new(IpAddr::V4(Ipv4Addr::LOCALHOST), port),
    }
}

/// Serves whoever comes on these terms, over a valid site in one hub, in which posts wait for one another and whose sessions count from 1, and hands the site back once that has ended. `Memory` comes before the first client, and
/// before anything is asked of the service's listener.
pub fn serve_clients_over<S: SearchKeeper, C: Clock, R: Time, L: Write, O: Office>(
    alloc: Global,
    site: S,
    rt: &R,
    watch: &mut Stopwatch,
    service: &mut Service,
    office: &mut O,
    clock: &mut C,
    log: &mut L,
    terms: Terms,
) -> Result<(Result<(), DailyFault>, S), (OpenFault, S)>
    requires usable { (S.site_state site).usable ≡ true }
    requires unpinned { (S.site_state site).pins ≡ [] }
    requires valid { IsTrue (S.site_state site).honest → ∥ IsSite (S.site_state site).site ∥₁ }
    ensures served { IfOk result (ClientsServedOver S.SiteKeeper L.contents O.lets_wait O.works terms site (service.old, log.old, watch.old.read.readings, office.old) (service.new, log.new, watch.new.read.readings, office.new) (C.given clock.old) (C.given clock.new)) }
    ensures unasked { OnErr result ((service.new ≡ service.old) × (log.new ≡ log.old) × (watch.new ≡ watch.old) × (office.new ≡ office.old)) }
    ensures unpinned { IfOk result (λ r. (S.site_state r.1).pins ≡ []) }
    ensures err { IfErr result (λ e. (e.0 ≡ OpenFault.Memory) × (e.1 ≡ site)) }
    ensures untold { IfErr result (λ e. clock.new ≡ clock.old) }
{
    let mut hub = match Hub::grouped(alloc, site, 1) {
        Ok(hub) => hub,
        Err((_, site)) => return Err((OpenFault::Memory, site)),
    };
    let ended = serve_in_hub(
        alloc, rt, watch, service, office, &mut hub, clock, log, terms,
    );
    Ok((ended, hub.close()))
}

/// Opens the image on a device, and serves whoever comes over its site on these terms, at an address or else at the site's port on 127.0.0.1, until a write or a sync of the device has
/// failed, or no socket can be waited for. Then it hands the device back. The log tells first where it is served.
///
/// What a crash at any moment leaves on the device represents the site after the first so many commits of the events that the clients made, with each that was acknowledged by
/// then. What is asked of the system for a listener is noted.
pub fn serve_clients<D: Device, R: Net + Time, C: Clock, L: Write, O: Office>(
    alloc: Global,
    rt: &R,
    device: D,
    address: Option<SocketAddr>,
    asked: &mut ListenerLog,
    watch: &mut Stopwatch,
    office: &mut O,
    clock: &mut C,
    log: &mut L,
    terms: Terms,
) -> Result<(Result<(), DailyFault>, D), (ServingFault, D)>
    ensures served { IfOk result (ClientsServedOnImage ⟦<SiteOn<D> as SiteKeeper>⟧ L.contents O.lets_wait O.works terms address device (log.old, watch.old.read.readings, office.old) (log.new, watch.new.read.readings, office.new) (C.given clock.old) (C.given clock.new)) }
    ensures listened { OnOk result (IsListened Listened (D.state device) address asked.old.calls asked.new.calls) }
    ensures asked { IfErr result (λ e. IsAskedInVain Listened NotListened (D.state device) address asked.old.calls asked.new.calls e.0) }
    ensures refused { IfErr result (λ e. HandsBack IsServingFault D.state (crash_states_of D.moment D.possible_since) device e.1 e.0) }
    ensures untold { IfErr result (λ e. (clock.new ≡ clock.old) × (office.new ≡ office.old)) }
{
    let site = match open_site(alloc, device) {
        Ok(site) => site,
        Err((fault, device)) => return Err((ServingFault::Image(fault), device)),
    };
    let front = site.front();
    let at = given_or_own(address, front.port);
    let mut service = match Service::open(alloc, rt, at, asked) {
        Ok(service) => service,
        Err(ListenFault::Memory) => return Err((
            ServingFault::Image(OpenFault::Memory),
            site.into_keeper().into_device(),
        )),
        Err(ListenFault::Net(cause)) => return Err((
            ServingFault::Listener(at, cause),
            site.into_keeper().into_device(),
        )),
    };
    tell_start(alloc, &front, at, log);
    match serve_clients_over(
        alloc,
        site,
        rt,
        watch,
        &mut service,
        office,
        clock,
        log,
        terms,
    ) {
        Ok((ended, site)) => Ok((ended, site.into_keeper().into_device())),
        Err((fault, site)) => Err((ServingFault::Image(fault), site.into_keeper().into_device())),
    }
}
