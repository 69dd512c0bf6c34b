//! Sockets are written.

ghost use Rattle.std.specs.Prelude.{◌≡◌, ◌<◌, true, Some, length, slice_get};
ghost use Rattle.definitions.specs.Honest.{made_count};
ghost use Rattle.socket_lines.specs.declared.line.Line.{Line};
ghost use Rattle.loop_rules.specs.Licence.{all_is_shut};
ghost use Rattle.socket_table.specs.Finding.{IsAt};
ghost use Rattle.ready_loop.specs.Serving.{IsServing, WritesOnce, Writes, WritesOut, WritesAll, WritesAt, own_by, wants_write};

use crate::ready::Loop;
use definitions::TurnFrame;
use socket_station::{SocketId, SocketWrite, Station};

impl Loop {
    /// The own frame at the cursor of the line, if it is made.
    fn own_at(&self, place: usize) -> Option<TurnFrame>
        requires { place < length self.now.table.lines }
        ensures { (l : Line) → slice_get self.now.table.lines place ≡ Some l → result ≡ own_by self.now l }
    {
        self.peer.made(self.table.lines()[place].cursor)
    }

    /// Whether the line is to be written: it is open, no write was refused after the last poll that listed it, and something is due.
    fn wants_write(&self, place: usize) -> bool
        requires { place < length self.now.table.lines }
        ensures { (l : Line) → slice_get self.now.table.lines place ≡ Some l → result ≡ wants_write (made_count self.now.peer.entries) self.now.table l }
    {
        let due = self.table.has_due(place, self.peer.made_count());
        let line = &self.table.lines()[place];
        line.is_open && !line.is_blocked && due
    }

    /// Writes on the socket once.
    fn write<S: Station>(&mut self, station: &mut S, place: usize, socket: SocketId)
        requires at { IsAt self.old.table place socket }
        requires serving { IsServing (S.history station.old) self.old }
        requires shut { all_is_shut self.old.table ≡ true }
        requires wants { WritesAt self.old place }
        ensures { Writes place socket (S.history station.old) (S.history station.new) self.old self.new }
    {
        self.peer.facts();
        let own = self.own_at(place);
        let due = self
            .table
            .due(place, self.peer.session().id(), self.peer.me(), own);
        match station.write(socket, due.bytes()) {
            SocketWrite::Gave(count) => self.table.give(place, socket, own, due, count),
            SocketWrite::NotYet => self.table.block(place, socket),
            SocketWrite::Failed => self.table.close(place, socket),
        }
    }

    /// Writes on the socket until nothing is due, or no more can be given.
    fn write_out<S: Station>(&mut self, station: &mut S, place: usize, socket: SocketId)
        requires at { IsAt self.old.table place socket }
        requires serving { IsServing (S.history station.old) self.old }
        requires shut { all_is_shut self.old.table ≡ true }
        ensures { WritesOut place socket (S.history station.old) (S.history station.new) self.old self.new }
    {
        while self.wants_write(place) {
            self.write(station, place, socket);
        }
    }

    /// Writes on each socket until nothing is due, or no more can be given.
    pub(crate) fn write_all<S: Station>(&mut self, station: &mut S)
        requires serving { IsServing (S.history station.old) self.old }
        requires shut { all_is_shut self.old.table ≡ true }
        ensures { WritesAll (S.history station.old) (S.history station.new) self.old self.new }
    {
        for place in 0..self.count() {
            let socket = self.socket_at(place);
            self.write_out(station, place, socket);
        }
    }
}
