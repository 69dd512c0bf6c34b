//! A socket, and the pieces that are brought on it.

ghost use Rattle.std.specs.Prelude.{◌≡◌};
ghost use Rattle.memory_station.specs.Rows.{row_marked};

use bytes::Bytes;
use socket_station::{SocketId, Standing};

/// Bytes that are read on a socket, and not in one read with those of another piece.
#[derive(Drop)]
pub(crate) struct Piece {
    pub socket: SocketId,
    pub bytes: Bytes,
}

/// A socket. Its pieces are those of its number from `from` on, the first without its first `at` bytes.
#[derive(Clone, Copy)]
pub(crate) struct Row {
    pub number: SocketId,
    pub standing: Standing,
    pub from: usize,
    pub at: usize,
    pub is_finished: bool,
    pub seems_ready: bool,
    pub is_refused: bool,
    pub is_even: bool,
}

/// What becomes of a socket.
#[derive(Clone, Copy)]
pub(crate) enum Mark {
    Closed,
    Finished,
    SeemsReady,
    Refused,
    Gave,
    GaveOdd,
}

/// What stands at the front of a socket.
#[derive(Clone, Copy)]
pub(crate) enum Front {
    /// A piece that has so many bytes left.
    Bytes(usize),
    NotYet,
    Ended,
}

impl Row {
    /// The row with that mark.
    pub(crate) fn marked(self, mark: Mark) -> Row
        ensures { result ≡ row_marked mark self }
    {
        let mut row = self;
        match mark {
            Mark::Closed => row.standing = Standing::Closed,
            Mark::Finished => row.is_finished = true,
            Mark::SeemsReady => row.seems_ready = true,
            Mark::Refused => {
                row.is_refused = true;
                row.is_even = false;
            }
            Mark::Gave => row.is_refused = false,
            Mark::GaveOdd => {
                row.is_refused = false;
                row.is_even = true;
            }
        }
        row
    }
}
