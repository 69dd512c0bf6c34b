//! Addresses, times, paths and sockets in the forms that the machine's own calls take and give.

ghost use Rattle.std.specs.Prelude.{◌≡◌, ◌^◌, ◌-◌, ◌/◌, min, Ok, IfOk, IfErr, IsOk, IsErr};
ghost use Rattle.std.specs.Duration.{as_nanos};
ghost use Rattle.std.specs.Str.{IsUtf8};
ghost use Rattle.std.specs.Net.Addr.{ipv4_octets};
ghost use Rattle.std.specs.Net.Socket.{socket_ip, socket_port};
ghost use Rattle.std.specs.declared.net.ip_addr.IpAddr.TheVariants as Ip;
ghost use Rattle.std.specs.declared.net.ipv4_addr.Ipv4Addr.{Ipv4Addr as V4Addr};
ghost use Rattle.machine_host.specs.declared.faults.HostFault.TheVariants as F;

use crate::faults::{Answer, HostFault, fault_of};
use crate::hosts::Numbered;
use socket_station::{Addr, SocketId};
use std::net::{Ipv4Addr, SocketAddr};
use std::time::Duration;
use std::{io, str};

/// A connection of the machine, and the number that it was opened under.
#[derive(Drop)]
pub struct Socket<S> {
    pub stream: S,
    pub number: SocketId,
}

impl<S> Socket<S> {
    /// The socket of a stream that was opened under this number, or the fault of the error by which
    /// it wasn't.
    pub fn of(stream: io::Result<S>, number: SocketId) -> Answer<Socket<S>>
        ensures ok { IfOk stream (λ s. result ≡ Ok (record { stream = s; number = number })) }
        ensures err { IsErr stream → IsErr result }
    {
        match stream {
            Ok(stream) => Ok(Socket { stream, number }),
            Err(error) => Err(fault_of(error)),
        }
    }
}

impl<S> Numbered for Socket<S> {
    ghost number = { λ s. s.number };

    fn number(&self) -> SocketId {
        self.number
    }
}

/// An address as std has it.
pub fn socket_addr(addr: Addr) -> SocketAddr
    ensures ip { (ip : V4Addr) × (socket_ip result ≡ Ip.V4 ip) × (ipv4_octets ip ≡ addr.ip) }
    ensures port { socket_port result ≡ addr.port }
{
    let [a, b, c, d] = addr.ip;
    SocketAddr::from((Ipv4Addr::new(a, b, c, d), addr.port))
}

/// The whole milliseconds that a clock answered, or the fault of its error. A time that is longer
/// than a number can say gives the greatest.
pub fn millis_of(time: io::Result<Duration>) -> Answer<u64>
    ensures ok { IfOk time (λ t. result ≡ Ok (min (as_nanos t / 1_000_000) (2 ^ 64 - 1))) }
    ensures err { IsErr time → IsErr result }
{
    match time {
        Ok(time) => Ok(u64::try_from(time.as_millis()).unwrap_or(u64::MAX)),
        Err(error) => Err(fault_of(error)),
    }
}

/// A path as text. One that isn't UTF-8 names no file, and gives `HostFault::Other`.
pub fn text_of(path: &[u8]) -> Answer<&str>
    ensures same { IfOk result (λ text. text.now ≡ path.now) }
    ensures text { IsUtf8 path.now → IsOk result }
    ensures other { IfErr result (λ fault. fault ≡ F.Other) }
{
    str::from_utf8(path).map_err(|_| HostFault::Other)
}
