//! A HELLO names a socket.

ghost use Rattle.std.specs.Prelude.{◌≡◌, ◌≤◌, ◌<◌, ◌&&◌, Some, None, length, slice_get, IsFalse};
ghost use Rattle.std.specs.Str.{bytes_eq};
ghost use Rattle.socket_lines.specs.Lines.{named_line};
ghost use Rattle.socket_lines.specs.Lines as L;
ghost use Rattle.socket_lines.specs.Seats as S;
ghost use Rattle.loop_rules.specs.Tables.{at_line, at_seat};
ghost use Rattle.loop_rules.specs.Hearing.{Hearer, with_name_free, named, names};
ghost use Rattle.socket_table.specs.Finding.{IsAt, IsSeatAt, IsNaming};

use crate::finding::seat_index;
use crate::table::Table;
use definitions::{Place, PlayerId};
use socket_lines::{Line, Seat};
use socket_list::lines::oust_all;
use socket_station::SocketId;

/// Whether a HELLO of the player whose seat that is names the socket: it has the session's id, and the pass that is wanted of the player, whose
/// bytes are not spent, and a socket that was dialled was dialled for it.
fn lets_name(
    line: &Line,
    seat: &Seat,
    session: &[u8; 32],
    id: &[u8; 32],
    player: PlayerId,
    pass: &[u8; 16],
) -> bool
    ensures { result ≡ bytes_eq id.now session.now && S.lets_name seat.now pass.now && L.lets_name player line.now }
{
    id == session && seat.lets_name(pass) && line.lets_name(player)
}

impl Table {
    /// The sockets of this name are to be shut.
    pub(crate) fn free_name(&mut self, player: PlayerId)
        ensures { self.new ≡ with_name_free player self.old }
    {
        oust_all(&mut self.lines, player);
    }

    /// The socket has its name.
    pub(crate) fn put_name(
        &mut self,
        place: usize,
        socket: SocketId,
        player: PlayerId,
        from: Place,
        next: Place,
    )
        requires at { IsAt self.old place socket }
        requires unnamed { (l : Line) → slice_get self.old.lines place ≡ Some l → l.name ≡ None }
        ensures { self.new ≡ at_line socket (named_line player from next) self.old }
    {
        self.lines[place].take_name(player, from, next);
    }

    /// The player named a socket of which so many bytes were taken.
    pub(crate) fn put_namer(&mut self, seat: usize, player: PlayerId, taken: u32, from: Place)
        requires seat { IsSeatAt self.old.seats player (Some seat) }
        requires taken { taken ≤ 56 }
        requires unspent { (c : Seat) → slice_get self.old.seats seat ≡ Some c → IsFalse (S.is_spent c) }
        ensures { self.new ≡ at_seat player (S.names taken from) self.old }
    {
        self.seats[seat].name(taken, from);
    }

    /// The place of the seat of the player, if its HELLO names the socket.
    pub(crate) fn naming_seat(
        &self,
        place: usize,
        session: &[u8; 32],
        id: &[u8; 32],
        player: PlayerId,
        pass: &[u8; 16],
    ) -> Option<usize>
        requires { place < length self.now.lines }
        ensures { (l : Line) → (h : Hearer) → slice_get self.now.lines place ≡ Some l → h.id ≡ session.now → IsNaming self.now (names h self.now l id.now player pass.now) player result }
    {
        match seat_index(&self.seats, player) {
            None => None,
            Some(seat) => {
                if lets_name(
                    &self.lines[place],
                    &self.seats[seat],
                    session,
                    id,
                    player,
                    pass,
                ) {
                    Some(seat)
                } else {
                    None
                }
            }
        }
    }
}
