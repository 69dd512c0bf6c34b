//! What the sockets of a case bring, and when.

ghost use Rattle.std.specs.Prelude.{◌≡◌};

use crate::cases::Socket;
use crate::faults::Fault;
use bytes::Bytes;
use memory_station::MemoryStation;
use socket_station::SocketId;
use std::alloc::{AllocError, Global};

/// What is still to be brought on a socket of the case.
#[derive(Drop)]
pub struct Bringing {
    /// The station's number of the socket: none before the program dials it.
    socket: Option<SocketId>,
    /// The pieces, the last one first.
    pieces: Vec<Bytes>,
    /// Whether each poll brings one piece, and not the opening all of them.
    is_slow: bool,
    /// Whether the socket ends after its pieces.
    is_lost: bool,
}

/// The bytes in pieces of so many, the last one first.
fn pieces_of(alloc: Global, bytes: &[u8], size: usize) -> Result<Vec<Bytes>, AllocError> {
    let mut pieces = Vec::new(alloc);
    for piece in bytes.chunks(size.max(1)) {
        let piece = Bytes::copy_from_slice(alloc, piece)?;
        pieces.push(piece)?;
    }
    pieces.reverse();
    Ok(pieces)
}

/// Brings a piece on a socket, and says whether there was room for it.
fn bring_piece(memory: &mut MemoryStation, socket: SocketId, piece: Bytes) -> bool
    ensures { memory.new.book.history ≡ memory.old.book.history }
{
    if piece.is_empty() || !memory.is_known(socket) {
        return false;
    }
    memory.bring(socket, piece).is_ok()
}

/// The socket ends after what was brought on it.
fn lose(memory: &mut MemoryStation, socket: SocketId)
    ensures { memory.new.book.history ≡ memory.old.book.history }
{
    if memory.is_known(socket) {
        memory.finish(socket);
    }
}

impl Bringing {
    /// All that such a socket brings, which isn't opened yet.
    pub fn of(alloc: Global, asked: &Socket) -> Result<Bringing, AllocError> {
        let pieces = pieces_of(alloc, asked.bytes.as_slice(), asked.size)?;
        Ok(Bringing {
            socket: None,
            pieces,
            is_slow: asked.is_slow,
            is_lost: asked.is_lost,
        })
    }

    /// Brings the next piece on this socket, or after the last one ends it, if it is to be lost. It
    /// says whether there was room.
    fn bring_next(&mut self, memory: &mut MemoryStation, socket: SocketId) -> bool
        ensures { memory.new.book.history ≡ memory.old.book.history }
    {
        match self.pieces.pop() {
            Some(piece) => bring_piece(memory, socket, piece),
            None => {
                if self.is_lost {
                    lose(memory, socket);
                }
                true
            }
        }
    }

    /// Brings all pieces on this socket, and ends it, if it is to be lost. It says whether there was
    /// room.
    fn bring_all(&mut self, memory: &mut MemoryStation, socket: SocketId) -> bool
        ensures { memory.new.book.history ≡ memory.old.book.history }
    {
        let mut has_room = true;
        'pieces: for _piece in 0..self.pieces.len() {
            has_room = self.bring_next(memory, socket) && has_room;
        }
        self.bring_next(memory, socket) && has_room
    }

    /// The socket has this number, and brings what comes at once. It says whether there was room.
    fn open(&mut self, memory: &mut MemoryStation, socket: SocketId) -> bool
        ensures { memory.new.book.history ≡ memory.old.book.history }
    {
        self.socket = Some(socket);
        if self.is_slow {
            return true;
        }
        self.bring_all(memory, socket)
    }

    /// Brings what one poll brings, and says whether there was room.
    fn go_on(&mut self, memory: &mut MemoryStation) -> bool
        ensures { memory.new.book.history ≡ memory.old.book.history }
    {
        match self.socket {
            Some(socket) if self.is_slow => self.bring_next(memory, socket),
            _ => true,
        }
    }

    /// A new socket comes to the station, on which this is brought. It says whether there was room.
    pub fn come(&mut self, memory: &mut MemoryStation) -> Result<bool, Fault>
        ensures { memory.new.book.history ≡ memory.old.book.history }
    {
        match memory.bring_socket() {
            None => Err(Fault::Wanted("at most 512 sockets")),
            Some(socket) => Ok(self.open(memory, socket)),
        }
    }
}

/// The program dialled this socket: on it comes what is next for such ones. It says whether there
/// was room.
pub fn open_dialled(all: &mut Vec<Bringing>, memory: &mut MemoryStation, socket: SocketId) -> bool
    ensures { memory.new.book.history ≡ memory.old.book.history }
{
    'bringings: for bringing in all.iter_mut() {
        if bringing.socket.is_none() {
            return bringing.open(memory, socket);
        }
    }
    true
}

/// Brings on all sockets what one poll brings, and says whether there was room.
pub fn go_on_all(all: &mut Vec<Bringing>, memory: &mut MemoryStation) -> bool
    ensures { memory.new.book.history ≡ memory.old.book.history }
{
    let mut has_room = true;
    'bringings: for bringing in all.iter_mut() {
        has_room = bringing.go_on(memory) && has_room;
    }
    has_room
}
