//! One socket of a machine, and what stands on its other side.

ghost use Rattle.std.specs.Prelude.{◌≡◌, ◌≤◌, ◌<◌, ◌+◌, ◌++◌, true, Some, None, IfOk, OnErr, length, take, drop, min};
ghost use Rattle.machine_host.specs.declared.faults.HostFault.TheVariants as F;

use machine_host::{Answer, HostFault};
use socket_station::{Addr, SocketId};
use std::alloc::{AllocError, Global};

/// A socket that was accepted or connected.
#[derive(Drop)]
pub struct Line {
    /// The number that it was opened under.
    pub number: SocketId,
    /// The address that it is connected to, unless it was accepted.
    pub addr: Option<Addr>,
    /// Which selector's waits report it, if any do.
    pub watcher: Option<u32>,
    /// Whether it stands, so that it may be read and written. One that is accepted stands at once.
    pub stands: bool,
    /// Whether something changed that no wait has reported.
    pub is_ready: bool,
    /// The bytes that came from the other side and weren't read yet.
    pub coming: Vec<u8>,
    /// Whether the other side sends no more.
    pub is_ended: bool,
    /// Why it is broken, if it is. Each read and write answers that.
    pub broken: Option<HostFault>,
    /// The bytes that were given to the other side.
    pub given: Vec<u8>,
    /// How many bytes each write takes at most. Where it is 0 a write would block.
    pub room: usize,
    /// Whether it was said that no more is given.
    pub writes_ended: bool,
    /// Whether it was closed.
    pub is_closed: bool,
}

impl Line {
    /// A socket that was accepted, where there is no address, or that is to be connected to one.
    pub(crate) fn new(alloc: Global, number: SocketId, addr: Option<Addr>) -> Line
        ensures { result.number ≡ number }
    {
        let stands = addr.is_none();
        Line {
            number,
            addr,
            watcher: None,
            stands,
            is_ready: stands,
            coming: Vec::new(alloc),
            is_ended: false,
            broken: None,
            given: Vec::new(alloc),
            room: usize::MAX,
            writes_ended: false,
            is_closed: false,
        }
    }

    /// Takes the bytes that came, as many as fit: none only where the other side has ended. Where
    /// none came it would block, and a socket that is broken answers why.
    pub(crate) fn read(&mut self, buf: &mut [u8]) -> Answer<usize>
        ensures within { IfOk result (λ count. count ≤ length buf.new) }
        ensures took { IfOk result (λ count. self.old.coming.items ≡ take count buf.new ++ self.new.coming.items) }
        ensures broken { IfOk result (λ count. self.old.broken ≡ None) }
        ensures kept { OnErr result (self.new ≡ self.old) }
    {
        if let Some(fault) = self.broken {
            return Err(fault);
        }
        let count = buf.len().min(self.coming.len());
        if !self.stands || (count == 0 && !self.is_ended) {
            return Err(HostFault::WouldBlock);
        }
        buf[..count].copy_from_slice(&self.coming[..count]);
        self.coming.drain(..count);
        Ok(count)
    }

    /// Gives the first of these bytes, as many as there is room for. Where there is none it would
    /// block, and a socket that is broken answers why. Without memory it answers `Other`.
    pub(crate) fn write(&mut self, bytes: &[u8]) -> Answer<usize>
        ensures within { IfOk result (λ count. count ≤ length bytes.now) }
        ensures gave { IfOk result (λ count. self.new.given.items ≡ self.old.given.items ++ take count bytes.now) }
        ensures broken { IfOk result (λ count. self.old.broken ≡ None) }
    {
        if let Some(fault) = self.broken {
            return Err(fault);
        }
        if !self.stands || self.room == 0 {
            return Err(HostFault::WouldBlock);
        }
        let count = bytes.len().min(self.room);
        match self.given.extend_from_slice(&bytes[..count]) {
            Ok(()) => Ok(count),
            Err(_) => Err(HostFault::Other),
        }
    }

    /// The other side sends these bytes. An error comes where memory is wanting.
    pub fn bring(&mut self, bytes: &[u8]) -> Result<(), AllocError>
        ensures { IfOk result (λ u. self.new.coming.items ≡ self.old.coming.items ++ bytes.now) }
    {
        self.coming.extend_from_slice(bytes)?;
        self.is_ready = true;
        Ok(())
    }

    /// The other side answers, and the socket stands.
    pub fn answer(&mut self)
        ensures { self.new ≡ record self.old { stands = true; is_ready = true } }
    {
        self.stands = true;
        self.is_ready = true;
    }

    /// The other side sends no more.
    pub fn end(&mut self)
        ensures { self.new ≡ record self.old { is_ended = true; is_ready = true } }
    {
        self.is_ended = true;
        self.is_ready = true;
    }

    /// The connection breaks, as by `Reset`, or by `Refused` where nobody listens.
    pub fn break_by(&mut self, fault: HostFault)
        ensures { self.new ≡ record self.old { broken = Some fault; is_ready = true } }
    {
        self.broken = Some(fault);
        self.is_ready = true;
    }

    /// Each write takes so many bytes at most from now on.
    pub fn limit(&mut self, room: usize)
        ensures { self.new ≡ record self.old { room = room; is_ready = true } }
    {
        self.room = room;
        self.is_ready = true;
    }
}
