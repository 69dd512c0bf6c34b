//! Where a seat stands.

ghost use Rattle.std.specs.Prelude.{◌≡◌};
ghost use Rattle.socket_table.specs.Finding.{IsSeatAt};

use definitions::PlayerId;
use socket_lines::Seat;

/// The place of the player's seat, if there is one.
pub(crate) fn seat_index(seats: &[Seat], player: PlayerId) -> Option<usize>
    ensures { IsSeatAt seats.now player result }
{
    for i in 0..seats.len() {
        if seats[i].link.player == player {
            return Some(i);
        }
    }
    None
}
