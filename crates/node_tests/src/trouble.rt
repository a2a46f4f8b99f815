// Why a line has no other answer.
use hex::FromHexError;
use page_alloc::LedgerFault;
use std::alloc::{AllocError, AllocFailed};
use thiserror::Error;
use tree_nodes::NodeFault;

/// Why a line has no other answer.
#[derive(Clone, Copy, Debug, PartialEq, Eq, Error)]
pub(crate) enum Trouble {
    /// It has no form that is known.
    #[error("line")]
    Line,
    /// Of nodes and pages.
    #[error("{0}")]
    Node(NodeFault),
    /// Of the ledger.
    #[error("{0}")]
    Ledger(LedgerFault),
    /// No page is free.
    #[error("full")]
    Full,
    /// What must not be.
    #[error("wrong: {0}")]
    Wrong(&'static str),
    /// Out of memory.
    #[error("memory")]
    Memory,
}

impl From<NodeFault> for Trouble {
    fn from(fault: NodeFault) -> Self {
        match fault {
            NodeFault::Memory => Trouble::Memory,
            _ => Trouble::Node(fault),
        }
    }
}

impl From<LedgerFault> for Trouble {
    fn from(fault: LedgerFault) -> Self {
        match fault {
            LedgerFault::Memory => Trouble::Memory,
            _ => Trouble::Ledger(fault),
        }
    }
}

impl From<FromHexError> for Trouble {
    fn from(_: FromHexError) -> Self {
        Trouble::Line
    }
}

impl From<AllocError> for Trouble {
    fn from(_: AllocError) -> Self {
        Trouble::Memory
    }
}

impl<T: Drop> From<AllocFailed<T>> for Trouble {
    fn from(_: AllocFailed<T>) -> Self {
        Trouble::Memory
    }
}
