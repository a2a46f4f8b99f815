// Faults of a hub.
ghost use Rattle.std.specs.Prelude.{◌≡◌};
ghost use Rattle.group_world.specs.Outcomes.{fault_of};

use host_types::{Refused, SiteFault};
use thiserror::Error;

/// Why a hub does not do what it was asked.
#[derive(Clone, Copy, Debug, PartialEq, Eq, Error)]
pub enum HubFault {
    /// No session has the number.
    #[error("Unknown")]
    Unknown,
    /// 32 sessions are there.
    #[error("Crowded")]
    Crowded,
    /// The greatest number would be next: of a session, or of a change of what the site is kept on.
    #[error("Spent")]
    Spent,
    /// The change is not valid on the site as it stands.
    #[error("{0}")]
    Refused(Refused),
    /// The change needs more than is free.
    #[error("Full {need} {free}")]
    Full {
        /// How much it would take.
        need: u64,
        /// How much it may take.
        free: u64,
    },
    /// A read of what the site is kept on failed in this call.
    #[error("Broken")]
    Broken,
    /// A write or a sync failed, in this call or before.
    #[error("Failed")]
    Failed,
    #[error("Memory")]
    Memory,
    /// The reply isn't made yet.
    #[error("NotReady")]
    NotReady,
    /// What the site is kept on would grow too many levels.
    #[error("Deep")]
    Deep,
}

impl HubFault {
    /// What a fault of the site is to those who ask the hub.
    pub fn of_site(fault: SiteFault) -> Self
        ensures { result ≡ fault_of fault }
    {
        match fault {
            SiteFault::Refused(refused) => HubFault::Refused(refused),
            SiteFault::Read => HubFault::Broken,
            SiteFault::Full { need, free } => HubFault::Full { need, free },
            SiteFault::Spent => HubFault::Spent,
            SiteFault::Deep => HubFault::Deep,
            SiteFault::Failed => HubFault::Failed,
            SiteFault::Memory => HubFault::Memory,
        }
    }
}
