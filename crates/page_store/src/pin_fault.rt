// Faults of a pin.
use thiserror::Error;

/// Why a key-value store gives no pin.
#[derive(Clone, Copy, Debug, PartialEq, Eq, Error)]
pub enum PinFault {
    /// A write or a sync failed before.
    #[error("Failed")]
    Failed,
    /// All 32 pins are out.
    #[error("Crowded")]
    Crowded,
}
