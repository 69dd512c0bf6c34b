//! Why a call of the machine failed.

use std::io::{self, ErrorKind};

/// Why a call of the machine failed.
#[derive(Clone, Copy, Debug, PartialEq, Eq)]
pub enum HostFault {
    /// Nothing can be done now without a wait.
    WouldBlock,
    /// No such file, folder or address is there.
    NotFound,
    /// The machine doesn't allow it.
    NoRight,
    /// A file of that name is there.
    Exists,
    /// Something else listens at that address.
    InUse,
    /// Nobody listens at that address.
    Refused,
    /// The other side broke the connection.
    Reset,
    /// There is no room for the bytes.
    Full,
    /// Any other error.
    Other,
}

/// What a call of the machine answers.
pub type Answer<T> = Result<T, HostFault>;

/// The fault of an error of std.
pub fn fault_of(error: io::Error) -> HostFault {
    match error.kind() {
        ErrorKind::WouldBlock => HostFault::WouldBlock,
        ErrorKind::NotFound => HostFault::NotFound,
        ErrorKind::PermissionDenied => HostFault::NoRight,
        ErrorKind::AlreadyExists => HostFault::Exists,
        ErrorKind::AddrInUse => HostFault::InUse,
        ErrorKind::ConnectionRefused => HostFault::Refused,
        ErrorKind::ConnectionReset => HostFault::Reset,
        ErrorKind::StorageFull => HostFault::Full,
        _ => HostFault::Other,
    }
}
