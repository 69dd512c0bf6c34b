//! What a table is asked before a call of the station.

ghost use Rattle.std.specs.Prelude.{◌≡◌, ◌<◌, true, false, Some, None, length, slice_get};
ghost use Rattle.std.specs.List.{list_any};
ghost use Rattle.socket_lines.specs.Lines.{serves};
ghost use Rattle.socket_lines.specs.Seats as S;
ghost use Rattle.loop_rules.specs.Tables as T;
ghost use Rattle.loop_rules.specs.Rules as R;

use crate::finding::seat_index;
use crate::table::Table;
use definitions::{Place, PlayerId};
use socket_lines::{Line, Seat};

/// Whether an open socket of these was dialled for the player or is named so.
fn any_serves(lines: &[Line], player: PlayerId) -> bool
    ensures { result ≡ list_any (serves player) lines.now }
{
    for line in lines {
        if line.serves(player) {
            return true;
        }
    }
    false
}

/// Whether one of these players lacks one of so many own frames.
fn any_lacks(seats: &[Seat], made: Place) -> bool
    ensures { result ≡ list_any (S.lacks made) seats.now }
{
    for seat in seats {
        if seat.lacks(made) {
            return true;
        }
    }
    false
}

impl Table {
    /// How many bytes may be taken on the socket: before its HELLO as many as that has, then what is left of its player's.
    pub fn room(&self, place: usize) -> u32
        requires { place < length self.now.lines }
        ensures { (l : Line) → slice_get self.now.lines place ≡ Some l → result ≡ T.room_on self.now l }
    {
        let line = &self.lines[place];
        match line.name {
            None => line.unnamed_room(),
            Some(player) => match seat_index(&self.seats, player) {
                None => 0,
                Some(seat) => self.seats[seat].room(),
            },
        }
    }

    /// Whether a rule or a limit asks to shut the socket.
    pub fn asks_shut(&self, place: usize) -> bool
        requires { place < length self.now.lines }
        ensures { (l : Line) → slice_get self.now.lines place ≡ Some l → result ≡ T.asks_shut self.now l }
    {
        let room = self.room(place);
        let line = &self.lines[place];
        line.is_open && (line.is_wrong || room == 0)
    }

    /// Whether the socket is to be read.
    pub fn wants_read(&self, place: usize) -> bool
        requires { place < length self.now.lines }
        ensures { (l : Line) → slice_get self.now.lines place ≡ Some l → result ≡ R.wants_read self.now l }
    {
        let asks_shut = self.asks_shut(place);
        let line = &self.lines[place];
        line.is_open && !asks_shut && !line.is_quiet
    }

    /// Whether an open socket was dialled for the player or is named so.
    pub fn is_served(&self, player: PlayerId) -> bool
        ensures { result ≡ T.is_served self.now player }
    {
        any_serves(&self.lines, player)
    }

    /// Whether the player of the seat is to be dialled by the player me.
    pub fn wants_dial(&self, me: PlayerId, seat: usize) -> bool
        requires { seat < length self.now.seats }
        ensures { (c : Seat) → slice_get self.now.seats seat ≡ Some c → result ≡ R.wants_dial me self.now c }
    {
        let seat = &self.seats[seat];
        me < seat.link.player
            && !self.is_served(seat.link.player)
            && !seat.is_dialled
            && !seat.is_spent()
    }

    /// Whether a player lacks one of so many own frames.
    pub fn lacks(&self, made: Place) -> bool
        ensures { result ≡ list_any (S.lacks made) self.now.seats }
    {
        any_lacks(&self.seats, made)
    }
}
