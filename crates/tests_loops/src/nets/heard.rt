//! A station that also counts its calls, so that a test sees which they were.

ghost use Rattle.std.specs.Prelude.{◌≡◌};

use definitions::PlayerId;
use memory_station::MemoryStation;
use socket_station::{Addr, Dial, Did, ReadyList, SocketId, SocketRead, SocketWrite, Station};
use std::alloc::Global;

/// What a call was.
#[derive(Clone, Copy, PartialEq, Eq)]
pub enum Call {
    Listen,
    LogTo,
    Dial,
    Poll,
    Read,
    Write,
    Keep,
    Sync,
}

/// The calls so far, as far as there was memory to note them, and how many sockets were shut.
#[derive(Drop)]
struct Notes {
    calls: Vec<Call>,
    shuts: u32,
}

impl Notes {
    fn call(&mut self, call: Call) {
        // a call that isn't noted fails the test that looks for it
        let _ = self.calls.push(call);
    }
}

/// A station in memory, and what was called of it.
#[derive(Drop)]
pub struct Heard {
    pub inner: MemoryStation,
    notes: Notes,
}

impl Heard {
    pub fn new(alloc: Global, inner: MemoryStation) -> Heard
        ensures { result.inner ≡ inner }
    {
        let calls = Vec::new(alloc);
        let notes = Notes { calls, shuts: 0 };
        Heard { inner, notes }
    }

    /// What the call of this number was, counted from 1 as the station counts them.
    pub fn call(&self, number: u32) -> Option<Call> {
        let index = (number as usize).checked_sub(1)?;
        self.notes.calls.get(index).copied()
    }

    /// How many calls of this kind there were after the first so many calls.
    pub fn count_after(&self, number: u32, kind: Call) -> u32 {
        let calls = self.notes.calls.get(number as usize..).unwrap_or(&[]);
        let mut count = 0u32;
        for call in calls {
            if *call == kind {
                count = count.saturating_add(1);
            }
        }
        count
    }

    /// How many calls of this kind there were.
    pub fn count(&self, kind: Call) -> u32 {
        self.count_after(0, kind)
    }

    /// How many sockets were shut.
    pub fn shuts(&self) -> u32 {
        self.notes.shuts
    }
}

impl Station for Heard {
    ghost history = { λ s. s.inner.book.history };

    fn listen(&mut self, addr: Addr) -> Did {
        self.notes.call(Call::Listen);
        self.inner.listen(addr)
    }

    fn log_to(&mut self, name: &[u8]) -> Did {
        self.notes.call(Call::LogTo);
        self.inner.log_to(name)
    }

    fn dial(&mut self, player: PlayerId, addr: Addr) -> Dial {
        self.notes.call(Call::Dial);
        self.inner.dial(player, addr)
    }

    fn poll(&mut self, ready: &mut ReadyList) -> Did {
        self.notes.call(Call::Poll);
        self.inner.poll(ready)
    }

    fn read(&mut self, socket: SocketId, buf: &mut [u8]) -> SocketRead {
        self.notes.call(Call::Read);
        self.inner.read(socket, buf)
    }

    fn write(&mut self, socket: SocketId, bytes: &[u8]) -> SocketWrite {
        self.notes.call(Call::Write);
        self.inner.write(socket, bytes)
    }

    fn shut(&mut self, socket: SocketId) {
        self.notes.shuts = self.notes.shuts.saturating_add(1);
        self.inner.shut(socket);
    }

    fn keep(&mut self, bytes: &[u8]) -> Did {
        self.notes.call(Call::Keep);
        self.inner.keep(bytes)
    }

    fn sync(&mut self) -> Did {
        self.notes.call(Call::Sync);
        self.inner.sync()
    }
}
