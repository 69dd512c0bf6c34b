//! Sockets are shut.

ghost use Rattle.std.specs.Prelude.{◌≡◌, true, Some, slice_get};
ghost use Rattle.socket_lines.specs.declared.line.Line.{Line};
ghost use Rattle.loop_rules.specs.Tables.{asks_shut};
ghost use Rattle.socket_table.specs.Finding.{IsAt};
ghost use Rattle.ready_loop.specs.Serving.{IsServing, Shuts, ShutsAll};

use crate::ready::Loop;
use socket_station::{SocketId, Station};

impl Loop {
    /// Shuts the socket, for which a rule or a limit asks.
    fn shut<S: Station>(&mut self, station: &mut S, place: usize, socket: SocketId)
        requires at { IsAt self.old.table place socket }
        requires serving { IsServing (S.history station.old) self.old }
        requires asks { (l : Line) → slice_get self.old.table.lines place ≡ Some l → asks_shut self.old.table l ≡ true }
        ensures { Shuts socket (S.history station.old) (S.history station.new) self.old self.new }
    {
        station.shut(socket);
        self.table.close(place, socket);
    }

    /// Shuts each socket for which a rule or a limit asks.
    pub(crate) fn shut_all<S: Station>(&mut self, station: &mut S)
        requires serving { IsServing (S.history station.old) self.old }
        ensures { ShutsAll (S.history station.old) (S.history station.new) self.old self.new }
    {
        for place in 0..self.count() {
            let socket = self.socket_at(place);
            if self.asks_shut(place) {
                self.shut(station, place, socket);
            }
        }
    }
}
