//! An engine that brings a station of its own: one link to the other player, and a log in memory.

ghost use Rattle.std.specs.Prelude.{◌≡◌, ◌≤◌, [], length};
ghost use Rattle.socket_station.specs.declared.answers.Standing.TheVariants.{Fresh};
ghost use Rattle.socket_station.specs.Standings.{standing_in};
ghost use Rattle.tests_loops.specs.declared.engines.Link.TheVariants.{New};

use definitions::PlayerId;
use socket_station::{
    Addr, Dial, Did, Ready, ReadyList, SocketId, SocketRead, SocketWrite, Station, StationNotes,
};
use std::alloc::Global;

/// How the link stands: its one socket has the number 0.
#[derive(Clone, Copy, PartialEq, Eq)]
pub(crate) enum Link {
    New,
    Open,
    Over,
}

/// What the engine keeps: the bytes that came and how many of them were read, those that are to go
/// out, and the log.
#[derive(Drop)]
pub(crate) struct Engine {
    notes: StationNotes,
    pub(crate) link: Link,
    pub(crate) came: Vec<u8>,
    pub(crate) read: usize,
    pub(crate) sent: Vec<u8>,
    pub(crate) log: Vec<u8>,
    pub(crate) synced: usize,
    ghost fresh: { link ≡ New → standing_in notes 0 ≡ Fresh },
}

impl Engine {
    pub(crate) fn new(alloc: Global) -> Engine
        ensures { result.notes ≡ [] }
    {
        let notes = StationNotes::new();
        let came = Vec::new(alloc);
        let sent = Vec::new(alloc);
        let log = Vec::new(alloc);
        Engine {
            notes,
            link: Link::New,
            came,
            read: 0,
            sent,
            log,
            synced: 0,
        }
    }
}

/// Adds bytes, where there is room for them.
fn append(to: &mut Vec<u8>, bytes: &[u8]) -> Did {
    match to.extend_from_slice(bytes) {
        Ok(()) => Did::Done,
        Err(_) => Did::Failed,
    }
}

/// What stands after the first so many bytes.
fn after(bytes: &[u8], count: usize) -> &[u8] {
    bytes.get(count..).unwrap_or(b"")
}

/// Takes the first of these bytes, as many as there is room for, and says how many.
fn take(from: &[u8], to: &mut [u8]) -> usize
    ensures { result ≤ length to.new }
{
    let count = from.len().min(to.len());
    to[..count].copy_from_slice(&from[..count]);
    count
}

impl Station for Engine {
    ghost history = { λ s. s.notes };

    #[tactic(auto, using(crate::proofs::Untouched::still_new))]
    fn listen(&mut self, addr: Addr) -> Did {
        self.notes.listen(Did::Done, addr);
        Did::Done
    }

    #[tactic(auto, using(crate::proofs::Untouched::still_new))]
    fn log_to(&mut self, name: &[u8]) -> Did {
        self.notes.log_to(Did::Done, name);
        Did::Done
    }

    #[tactic(auto, using(crate::proofs::Untouched::still_new))]
    fn dial(&mut self, player: PlayerId, addr: Addr) -> Dial {
        if self.link != Link::New {
            self.notes.dial(Dial::Failed, player, addr);
            return Dial::Failed;
        }
        self.link = Link::Open;
        self.notes.dial(Dial::Socket(0), player, addr);
        Dial::Socket(0)
    }

    #[tactic(auto, using(crate::proofs::Untouched::still_new))]
    fn poll(&mut self, ready: &mut ReadyList) -> Did {
        ready.clear();
        if self.read < self.came.len() {
            if self.link == Link::New {
                ready.push(Ready::Opened(0));
                self.link = Link::Open;
            } else {
                ready.push(Ready::Socket(0));
            }
        }
        self.notes.poll(Did::Done, ready.as_slice());
        Did::Done
    }

    #[tactic(auto, using(crate::proofs::Untouched::still_new))]
    fn read(&mut self, socket: SocketId, buf: &mut [u8]) -> SocketRead {
        let count = take(after(&self.came, self.read), buf);
        let read = if count == 0 {
            SocketRead::NotYet
        } else {
            SocketRead::Took(count)
        };
        self.read = self.read.saturating_add(count);
        self.notes.read(socket, read, buf);
        read
    }

    #[tactic(auto, using(crate::proofs::Untouched::still_new))]
    fn write(&mut self, socket: SocketId, bytes: &[u8]) -> SocketWrite {
        let write = match append(&mut self.sent, bytes) {
            Did::Done => SocketWrite::Gave(bytes.len()),
            Did::Failed => SocketWrite::NotYet,
        };
        self.notes.write(socket, write, bytes);
        write
    }

    fn shut(&mut self, socket: SocketId) {
        self.link = Link::Over;
        self.notes.shut(socket);
    }

    #[tactic(auto, using(crate::proofs::Untouched::still_new))]
    fn keep(&mut self, bytes: &[u8]) -> Did {
        let did = append(&mut self.log, bytes);
        self.notes.keep(did, bytes);
        did
    }

    #[tactic(auto, using(crate::proofs::Untouched::still_new))]
    fn sync(&mut self) -> Did {
        self.synced = self.log.len();
        self.notes.sync(Did::Done);
        Did::Done
    }
}
