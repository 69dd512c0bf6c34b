//! The station of a case: one in memory, whose sockets bring what the case says.

ghost use Rattle.std.specs.Prelude.{◌≡◌};

use crate::bringing::{Bringing, go_on_all, open_dialled};
use crate::cases::Socket;
use crate::faults::Fault;
use definitions::PlayerId;
use memory_station::MemoryStation;
use socket_station::{Addr, Dial, Did, ReadyList, SocketId, SocketRead, SocketWrite, Station};
use std::alloc::{AllocError, Global};

/// A station in memory, and what is still to be brought on its sockets. Each call is answered as
/// the station in memory answers it.
#[derive(Drop)]
pub struct CaseStation {
    pub memory: MemoryStation,
    bringings: Vec<Bringing>,
    /// Whether there was room for all that was brought.
    has_room: bool,
}

impl CaseStation {
    /// The station, on which nothing is to be brought.
    pub fn over(alloc: Global, memory: MemoryStation) -> CaseStation
        ensures { result.memory ≡ memory }
    {
        CaseStation {
            memory,
            bringings: Vec::new(alloc),
            has_room: true,
        }
    }

    /// A socket comes to it, that brings this.
    pub fn accept(&mut self, alloc: Global, asked: &Socket) -> Result<(), Fault>
        ensures { self.new.memory.book.history ≡ self.old.memory.book.history }
    {
        let mut bringing = Bringing::of(alloc, asked)?;
        let has_room = bringing.come(&mut self.memory)?;
        self.has_room = self.has_room && has_room;
        self.bringings.push(bringing)?;
        Ok(())
    }

    /// The next socket that is dialled brings this, after those that were said so before.
    pub fn expect(&mut self, alloc: Global, asked: &Socket) -> Result<(), AllocError>
        ensures { self.new.memory ≡ self.old.memory }
    {
        let bringing = Bringing::of(alloc, asked)?;
        self.bringings.push(bringing)?;
        Ok(())
    }

    /// Refuses a run in which there wasn't room for all that was to be brought.
    pub fn refuse_short(&self) -> Result<(), Fault> {
        if self.has_room {
            Ok(())
        } else {
            Err(Fault::Wanted("at most 65536 pieces"))
        }
    }
}

impl Station for CaseStation {
    ghost history = { λ s. s.memory.book.history };

    fn listen(&mut self, addr: Addr) -> Did {
        self.memory.listen(addr)
    }

    fn log_to(&mut self, name: &[u8]) -> Did {
        self.memory.log_to(name)
    }

    /// A dial that fails opens no socket, so that what the next one brings is still to come.
    fn dial(&mut self, player: PlayerId, addr: Addr) -> Dial {
        let dial = self.memory.dial(player, addr);
        if let Dial::Socket(socket) = dial {
            let has_room = open_dialled(&mut self.bringings, &mut self.memory, socket);
            self.has_room = self.has_room && has_room;
        }
        dial
    }

    fn poll(&mut self, ready: &mut ReadyList) -> Did {
        let has_room = go_on_all(&mut self.bringings, &mut self.memory);
        self.has_room = self.has_room && has_room;
        self.memory.poll(ready)
    }

    fn read(&mut self, socket: SocketId, buf: &mut [u8]) -> SocketRead {
        self.memory.read(socket, buf)
    }

    fn write(&mut self, socket: SocketId, bytes: &[u8]) -> SocketWrite {
        self.memory.write(socket, bytes)
    }

    fn shut(&mut self, socket: SocketId) {
        self.memory.shut(socket);
    }

    fn keep(&mut self, bytes: &[u8]) -> Did {
        self.memory.keep(bytes)
    }

    fn sync(&mut self) -> Did {
        self.memory.sync()
    }
}
