//! Sockets are read.

ghost use Rattle.std.specs.Prelude.{◌≡◌, ◌≤◌, ◌<◌, [], false, true, Some, length, slice_get, OnOk, OnErr};
ghost use Rattle.socket_lines.specs.declared.line.Line.{Line};
ghost use Rattle.socket_station.specs.Withins.{TakesWithin};
ghost use Rattle.socket_list.specs.Sockets.{IsAt};
ghost use Rattle.watch_rules.specs.Hearing.{room_on};
ghost use Rattle.watch_rules.specs.Histories.{AreTold};
ghost use Rattle.watch_rules.specs.Views.{start};
ghost use Rattle.live_logger.specs.States.{IsWatching, with_view};
ghost use Rattle.live_logger.specs.Reading as R;

use crate::board::Board;
use crate::watch::{MOST_TAKEN, Watch};
use socket_station::{SocketId, SocketRead, Station};
use std::alloc::AllocError;

/// A read of the socket answered this, with what it took at the front of these bytes. An error
/// comes where the books' allocator has no memory.
fn put_read(
    board: &mut Board,
    place: usize,
    socket: SocketId,
    read: SocketRead,
    bytes: &[u8],
) -> Result<(), AllocError>
    requires at { IsAt board.old.view.sockets place socket }
    requires whole { board.old.is_out_of_memory ≡ false }
    requires within { TakesWithin read bytes.now }
    requires room { (l : Line) → slice_get board.old.view.sockets.lines place ≡ Some l → length bytes.now ≤ room_on board.old.view l }
    ensures all { (l : Line) → slice_get board.old.view.sockets.lines place ≡ Some l → OnOk result (board.new ≡ with_view (R.read_by board.old.view l socket read bytes.now) board.old) }
    ensures memory { OnErr result (board.new.is_out_of_memory ≡ true) }
{
    match read {
        SocketRead::Took(count) => board.take(place, socket, &bytes[..count]),
        SocketRead::NotYet => {
            board.quiet(place, socket);
            Ok(())
        }
        SocketRead::Ended => {
            board.close(place, socket);
            Ok(())
        }
        SocketRead::Failed => {
            board.close(place, socket);
            Ok(())
        }
    }
}

impl Watch {
    /// Reads of the socket once, no more than may be taken on it.
    fn read<S: Station>(
        &mut self,
        station: &mut S,
        place: usize,
        socket: SocketId,
    ) -> Result<(), AllocError>
        requires at { IsAt self.old.view.sockets place socket }
        requires ready { IsWatching (S.history station.old) self.old }
        requires wants { R.WantsAt self.old.view place }
        ensures all { OnOk result (R.Reads place (S.history station.old) (S.history station.new) self.old self.new) }
        ensures memory { OnErr result (AreTold (start self.old.view.setting) [] (S.history station.new)) }
        ensures lacks { OnErr result (self.new.is_out_of_memory ≡ true) }
    {
        let most = MOST_TAKEN.min(self.board.room(place) as usize);
        let read = station.read(socket, &mut self.buffer[..most]);
        put_read(&mut self.board, place, socket, read, &self.buffer[..most])
    }

    /// Reads of the socket until nothing is there, or a rule or a limit asks to shut it.
    fn read_out<S: Station>(
        &mut self,
        station: &mut S,
        place: usize,
        socket: SocketId,
    ) -> Result<(), AllocError>
        requires at { IsAt self.old.view.sockets place socket }
        requires ready { IsWatching (S.history station.old) self.old }
        ensures all { OnOk result (R.ReadsOut place (S.history station.old) (S.history station.new) self.old self.new) }
        ensures memory { OnErr result (AreTold (start self.old.view.setting) [] (S.history station.new)) }
        ensures lacks { OnErr result (self.new.is_out_of_memory ≡ true) }
    {
        while self.board.wants_read(place) {
            self.read(station, place, socket)?;
        }
        Ok(())
    }

    /// Reads of each socket so.
    pub(crate) fn read_all<S: Station>(&mut self, station: &mut S) -> Result<(), AllocError>
        requires ready { IsWatching (S.history station.old) self.old }
        ensures all { OnOk result (R.ReadsAll (length self.new.view.sockets.lines) (S.history station.old) (S.history station.new) self.old self.new) }
        ensures memory { OnErr result (AreTold (start self.old.view.setting) [] (S.history station.new)) }
        ensures lacks { OnErr result (self.new.is_out_of_memory ≡ true) }
    {
        for place in 0..self.board.count() {
            let socket = self.board.socket_at(place);
            self.read_out(station, place, socket)?;
        }
        Ok(())
    }
}
