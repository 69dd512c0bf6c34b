//! Addresses.

/// An address of a socket: four bytes of IPv4, and a port.
#[derive(Clone, Copy, Debug, PartialEq, Eq)]
pub struct Addr {
    pub ip: [u8; 4],
    pub port: u16,
}
