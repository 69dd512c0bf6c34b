//! Sockets open, and a poll is made.

ghost use Rattle.std.specs.Prelude.{◌≡◌, ◌≤◌, ◌<◌, [], ◌∷◌, ◌++◌, true, false, Some, filter, map, length, slice_get};
ghost use Rattle.socket_lines.specs.Lines.{woken, dialled_line};
ghost use Rattle.socket_lines.specs.Seats as S;
ghost use Rattle.loop_rules.specs.Tables.{at_line, at_seat, is_served};
ghost use Rattle.loop_rules.specs.Told.{IsNotIn};
ghost use Rattle.loop_rules.specs.Licence.{all_is_shut};
ghost use Rattle.loop_rules.specs.After.{dialled_on, opened_on, listed, rested, polled_on};
ghost use Rattle.socket_list.specs.Opening.{AreNewTo};
ghost use Rattle.socket_table.specs.declared.table.TheConstants.{MOST_LINES};
ghost use Rattle.socket_table.specs.Finding.{IsSeatAt};
ghost use Rattle.socket_table.specs.Opening.{HasDialRoom};

use crate::table::Table;
use definitions::{Place, PlayerId};
use socket_lines::{Line, MOST_ACCEPTED, Seat};
use socket_list::lines::{add, drop_closed, wake_all};
use socket_station::{Ready, SocketId};

/// Each player may be dialled again.
fn rest_all(seats: &mut [Seat])
    ensures { seats.new ≡ map S.rests seats.old }
{
    for seat in seats.iter_mut() {
        seat.rest();
    }
}

impl Table {
    /// A dial of the player failed, or is about to open a socket.
    pub fn dial_seat(&mut self, seat: usize, player: PlayerId)
        requires { IsSeatAt self.old.seats player (Some seat) }
        ensures seats { self.new ≡ at_seat player S.dials self.old }

        // There is room for one more line then.
        ensures room { (c : Seat) → slice_get self.old.seats seat ≡ Some c → c.is_dialled ≡ false → HasDialRoom self.new }
    {
        self.seats[seat].dial();
    }

    /// A socket was dialled for the player.
    fn add_dialled(&mut self, player: PlayerId, socket: SocketId, next: Place)
        requires new { IsNotIn socket self.old.lines }
        requires free { is_served self.old player ≡ false }
        requires room { HasDialRoom self.old }
        ensures { self.new ≡ record self.old { lines = self.old.lines ++ dialled_line socket player next ∷ [] } }
    {
        add(&mut self.lines, Line::dialled(socket, player, next));
    }

    /// A dial opened a socket for the player: the HELLO on it asks for this place.
    pub fn dialled(&mut self, seat: usize, player: PlayerId, socket: SocketId, next: Place)
        requires seat { IsSeatAt self.old.seats player (Some seat) }
        requires rested { (c : Seat) → slice_get self.old.seats seat ≡ Some c → c.is_dialled ≡ false }
        requires new { IsNotIn socket self.old.lines }
        requires free { is_served self.old player ≡ false }
        ensures { self.new ≡ dialled_on socket player next self.old }
    {
        self.dial_seat(seat, player);
        self.add_dialled(player, socket, next);
    }

    /// A socket that was listed may be read and written again.
    fn wake(&mut self, socket: SocketId)
        ensures { self.new ≡ at_line socket woken self.old }
    {
        wake_all(&mut self.lines, socket);
    }

    /// A new socket was accepted: one beyond the most that are is to be shut.
    fn open(&mut self, socket: SocketId)
        requires new { IsNotIn socket self.old.lines }
        requires few { length self.old.lines < MOST_LINES }
        ensures { self.new ≡ opened_on socket self.old }
    {
        if self.accepted < MOST_ACCEPTED {
            add(&mut self.lines, Line::accepted(socket, false));
            self.accepted += 1;
        } else {
            add(&mut self.lines, Line::accepted(socket, true));
        }
    }

    /// Closed sockets go; the others are no more than are accepted at most, and one that was dialled for each number of a player.
    fn go_on(&mut self)
        requires { all_is_shut self.old ≡ true }
        ensures lines { self.new ≡ record self.old { lines = filter (λ l. l.is_open) self.old.lines } }
        ensures few { length self.new.lines ≤ 512 }
    {
        drop_closed(&mut self.lines);
    }

    /// Each player may be dialled again.
    fn rest(&mut self)
        requires { length self.old.lines ≤ MOST_LINES }
        ensures { self.new ≡ record self.old { seats = map S.rests self.old.seats } }
    {
        rest_all(&mut self.seats);
    }

    /// A poll listed this.
    fn list(&mut self, item: Ready)
        requires new { AreNewTo self.old.lines (item ∷ []) }
        requires few { length self.old.lines < MOST_LINES }
        ensures { self.new ≡ listed self.old item }
    {
        match item {
            Ready::Opened(socket) => self.open(socket),
            Ready::Socket(socket) => self.wake(socket),
        }
    }

    /// A poll was made and listed this: closed sockets go, each player may be dialled again, sockets open, and others may be read and written
    /// again.
    pub fn polled(&mut self, ready: &[Ready])
        requires shut { all_is_shut self.old ≡ true }
        requires few { length ready.now ≤ 64 }
        requires new { AreNewTo self.old.lines ready.now }
        ensures { self.new ≡ polled_on ready.now self.old }
    {
        self.go_on();
        self.rest();
        for item in ready {
            self.list(*item);
        }
    }
}
