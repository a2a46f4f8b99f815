// Why a line has no other answer.
use sector_device::DeviceFault;
use std::alloc::{AllocError, AllocFailed};
use std::{fmt, io};

/// Why a line has no other answer.
#[derive(Clone, Copy)]
pub(crate) enum Trouble {
    /// It has no form that is known.
    Line,
    Device(DeviceFault),
    /// A call of a file without any device.
    File(io::ErrorKind),
    Memory,
}

impl fmt::Display for Trouble {
    fn fmt<W: fmt::Write>(&self, f: &mut fmt::Formatter<W>) -> fmt::Result {
        match self {
            Trouble::Line => f.write_str("line"),
            Trouble::Device(fault) => fault.fmt(f),
            Trouble::File(kind) => kind.fmt(f),
            Trouble::Memory => f.write_str("memory"),
        }
    }
}

impl From<DeviceFault> for Trouble {
    fn from(fault: DeviceFault) -> Self {
        Trouble::Device(fault)
    }
}

impl From<io::Error> for Trouble {
    fn from(error: io::Error) -> Self {
        Trouble::File(error.kind())
    }
}

impl From<AllocError> for Trouble {
    fn from(_: AllocError) -> Self {
        Trouble::Memory
    }
}

impl<T: Drop> From<AllocFailed<T>> for Trouble {
    fn from(_: AllocFailed<T>) -> Self {
        Trouble::Memory
    }
}
