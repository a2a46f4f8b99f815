// Faults of a run, as lines of standard error.
use thiserror::Error;

/// Why a run ends with status 1.
#[derive(Debug, Drop, Error)]
pub enum ReplayFault {
    /// A line of the script has no form, or couldn't be read. Lines count from 1.
    #[error("script: line {0}")]
    Script(u64),
    #[error("memory")]
    Memory,
    /// Standard output took no more.
    #[error("output")]
    Output,
}
