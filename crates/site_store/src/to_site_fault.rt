// Faults of what is kept, as the site's.
ghost use Rattle.std.specs.Prelude.{◌≡◌};
ghost use Rattle.host_types.specs.ChangesFaults.{fault_at};
ghost use Rattle.site_store.specs.StoreFault.{site_fault_of, store_site_fault_of, site_pin_fault_of};

use crate::SiteOpenFault;
use host_types::{ChangesFault, SiteFault, SitePinFault};
use page_store::{KeeperFault, PinFault};

/// A keeper's fault as the site's.
pub fn store_fault_comes(fault: KeeperFault) -> SiteFault
    ensures { result ≡ store_site_fault_of fault }
{
    match fault {
        KeeperFault::Device
        | KeeperFault::NoImage
        | KeeperFault::Version
        | KeeperFault::Damaged { .. }
        | KeeperFault::Small => SiteFault::Read,
        KeeperFault::Spent => SiteFault::Spent,
        KeeperFault::Deep => SiteFault::Deep,
        KeeperFault::Full { need, free } => SiteFault::Full { need, free },
        KeeperFault::Failed => SiteFault::Failed,
        KeeperFault::Memory => SiteFault::Memory,
    }
}

/// A fault of a commit of several changes, as the site's.
pub fn changes_fault_comes(fault: KeeperFault) -> ChangesFault
    ensures { result ≡ fault_at 0 (store_site_fault_of fault) }
{
    ChangesFault::at(0, store_fault_comes(fault))
}

/// Why a keeper gives no pin, as the site's.
pub fn pin_fault_comes(fault: PinFault) -> SitePinFault
    ensures { result ≡ site_pin_fault_of fault }
{
    match fault {
        PinFault::Failed => SitePinFault::Failed,
        PinFault::Crowded => SitePinFault::Crowded,
    }
}

/// A fault of what is kept as the site's, once the site is open.
pub fn to_site_fault(fault: SiteOpenFault) -> SiteFault
    ensures { result ≡ site_fault_of fault }
{
    match fault {
        SiteOpenFault::BadRecord => SiteFault::Read,
        SiteOpenFault::Keeper(fault) => store_fault_comes(fault),
        SiteOpenFault::Memory => SiteFault::Memory,
    }
}
