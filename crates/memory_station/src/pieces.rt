//! The pieces at the front of a socket.

ghost use Rattle.std.specs.Prelude.{◌≡◌, ◌^◌, ◌<◌, ◌+◌, [], MatchOption, drop, if◌then◌else◌, nat_lt};
ghost use Rattle.memory_station.specs.Rows.{pieces_at, IsFront};

use crate::rows::{Piece, Row};
use socket_station::SocketId;

/// The place of the first piece of a socket from that place on.
pub(crate) fn front_piece(pieces: &Vec<Piece>, number: SocketId, from: usize) -> Option<usize>
    ensures { MatchOption result (pieces_at number (drop from pieces.now.items) ≡ []) (λ k. IsFront pieces.now.items number from k) }
{
    for k in from..pieces.len() {
        if pieces[k].socket == number {
            return Some(k);
        }
    }
    None
}

/// The row behind so many of the bytes that are left of the piece at that place.
pub(crate) fn behind(row: Row, place: usize, count: usize, left: usize) -> Row
    requires place { place + 1 < 2 ^ 64 }
    requires at { row.at + left < 2 ^ 64 }
    ensures { result ≡ (if nat_lt count left then record row { at = row.at + count } else record row { from = place + 1; at = 0 }) }
{
    let mut row = row;
    if count < left {
        row.at += count;
    } else {
        row.from = place + 1;
        row.at = 0;
    }
    row
}
