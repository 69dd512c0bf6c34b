//! Sockets are shut.

ghost use Rattle.std.specs.Prelude.{◌≡◌, ◌<◌, true, Some, length, slice_get};
ghost use Rattle.socket_list.specs.Sockets.{IsAt};
ghost use Rattle.live_logger.specs.States.{IsWatching};
ghost use Rattle.live_logger.specs.Serving.{ShutsAt, ShutsAll};

use crate::watch::Watch;
use socket_station::{SocketId, Station};

impl Watch {
    /// Shuts the socket at the place, where a rule or a limit asks for it.
    fn shut<S: Station>(&mut self, station: &mut S, place: usize, socket: SocketId)
        requires at { IsAt self.old.view.sockets place socket }
        requires ready { IsWatching (S.history station.old) self.old }
        ensures { ShutsAt place (S.history station.old) (S.history station.new) self.old self.new }
    {
        if self.board.asks_shut(place) {
            station.shut(socket);
            self.board.close(place, socket);
        }
    }

    /// Shuts each socket for which a rule or a limit asks.
    pub(crate) fn shut_all<S: Station>(&mut self, station: &mut S)
        requires ready { IsWatching (S.history station.old) self.old }
        ensures { ShutsAll (length self.new.view.sockets.lines) (S.history station.old) (S.history station.new) self.old self.new }
    {
        for place in 0..self.board.count() {
            let socket = self.board.socket_at(place);
            self.shut(station, place, socket);
        }
    }
}
