//! The datagrams of a machine, and what its other side brings and takes.

ghost use Rattle.std.specs.Prelude.{◌≡◌, ◌≤◌, [], true, Some, None, IfOk, OnErr, OnOk, length};

use machine_host::{Answer, HostFault};
use socket_station::Addr;
use std::alloc::{AllocError, Global};

/// A datagram that was given.
#[derive(Drop)]
pub struct Datagram {
    /// The address that it goes to.
    pub addr: Addr,
    pub bytes: Vec<u8>,
}

/// What datagrams are received and sent by.
#[derive(Drop)]
pub struct Mailbox {
    alloc: Global,
    /// The address that it stands at, if it was bound.
    pub addr: Option<Addr>,
    /// Which selector's waits report it, if any do.
    pub watcher: Option<u32>,
    /// Whether something came that no wait has reported.
    pub is_ready: bool,
    /// The datagrams that came and weren't received, the first one first.
    pub coming: Vec<Vec<u8>>,
    /// The datagrams that were given, the first one first.
    pub given: Vec<Datagram>,
    /// How many bytes of a datagram go at most. Where it is 0 a send would block.
    pub room: usize,
}

impl Mailbox {
    /// It stands nowhere.
    pub(crate) fn new(alloc: Global) -> Mailbox
        ensures addr { result.addr ≡ None }
        ensures coming { result.coming.items ≡ [] }
        ensures given { result.given.items ≡ [] }
    {
        Mailbox {
            alloc,
            addr: None,
            watcher: None,
            is_ready: false,
            coming: Vec::new(alloc),
            given: Vec::new(alloc),
            room: usize::MAX,
        }
    }

    /// It stands at this address, where nothing came yet.
    pub(crate) fn begin(&mut self, addr: Addr)
        ensures addr { self.new.addr ≡ Some addr }
        ensures watcher { self.new.watcher ≡ None }
        ensures coming { self.new.coming.items ≡ [] }
    {
        self.addr = Some(addr);
        self.watcher = None;
        self.is_ready = false;
        self.coming.clear();
    }

    /// Takes the next datagram, or as many of its first bytes as fit. Where none is there it would
    /// block.
    pub(crate) fn receive(&mut self, buf: &mut [u8]) -> Answer<usize>
        ensures within { IfOk result (λ count. count ≤ length buf.new) }
        ensures kept { OnErr result (self.new ≡ self.old) }
    {
        if self.coming.is_empty() {
            return Err(HostFault::WouldBlock);
        }
        let datagram = self.coming.remove(0);
        let count = buf.len().min(datagram.len());
        buf[..count].copy_from_slice(&datagram[..count]);
        Ok(count)
    }

    /// Gives the first of these bytes as one datagram, as many as there is room for. Where there is
    /// none it would block, and without memory it answers `Other`.
    pub(crate) fn send(&mut self, addr: Addr, bytes: &[u8]) -> Answer<usize>
        ensures within { IfOk result (λ count. count ≤ length bytes.now) }
    {
        if self.room == 0 {
            return Err(HostFault::WouldBlock);
        }
        let count = bytes.len().min(self.room);
        match self.keep(addr, &bytes[..count]) {
            Ok(()) => Ok(count),
            Err(_) => Err(HostFault::Other),
        }
    }

    /// One more datagram was given.
    fn keep(&mut self, addr: Addr, bytes: &[u8]) -> Result<(), AllocError> {
        let mut kept = Vec::with_capacity(self.alloc, bytes.len())?;
        kept.extend_from_slice(bytes)?;
        self.given.push(Datagram { addr, bytes: kept })?;
        Ok(())
    }

    /// The other side sends a datagram. An error comes where memory is wanting.
    pub fn bring(&mut self, bytes: &[u8]) -> Result<(), AllocError>
        ensures { OnOk result (self.new.is_ready ≡ true) }
    {
        let mut coming = Vec::with_capacity(self.alloc, bytes.len())?;
        coming.extend_from_slice(bytes)?;
        self.coming.push(coming)?;
        self.is_ready = true;
        Ok(())
    }
}
