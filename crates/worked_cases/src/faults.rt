//! Why a file of cases can't be played.

use std::alloc::{AllocError, AllocFailed};

/// Why a line of a file can't be taken.
#[derive(Clone, Copy, Debug, PartialEq, Eq)]
pub enum Fault {
    /// Memory is wanting.
    Memory,
    /// This was wanted, and something else stands there.
    Wanted(&'static str),
}

impl From<AllocError> for Fault {
    fn from(_error: AllocError) -> Fault {
        Fault::Memory
    }
}

impl<T: Drop> From<AllocFailed<T>> for Fault {
    fn from(_error: AllocFailed<T>) -> Fault {
        Fault::Memory
    }
}
