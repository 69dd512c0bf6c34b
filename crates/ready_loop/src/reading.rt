//! Sockets are read.

ghost use Rattle.std.specs.Prelude.{◌≡◌, ◌<◌, ◌≤◌, [], Some, length, slice_get};
ghost use Rattle.socket_lines.specs.declared.line.Line.{Line};
ghost use Rattle.loop_rules.specs.Tables.{room_on};
ghost use Rattle.loop_rules.specs.Rules.{wants_read};
ghost use Rattle.socket_station.specs.Withins.{TakesWithin};
ghost use Rattle.socket_table.specs.declared.table.TheConstants.{MOST_TAKEN};
ghost use Rattle.socket_table.specs.Finding.{IsAt};
ghost use Rattle.definitions.specs.World.{players_of};
ghost use Rattle.socket_table.specs.Hearers.{ArePlayers};
ghost use Rattle.ready_loop.specs.Hearers.{hearer_by};
ghost use Rattle.ready_loop.specs.Steps.{read_on};
ghost use Rattle.ready_loop.specs.Handling.{ReadsOnce, Reads, ReadsOut, ReadsAll, IsReadyToRead, WantsAt};

use crate::hears::PeerHears;
use crate::ready::Loop;
use crate::stops::Stop;
use peer_core::Peer;
use socket_station::{SocketId, SocketRead, Station};
use socket_table::{FrameList, MOST_TAKEN, Table};

/// A read of the socket answered this, with what it took at the front of these bytes.
fn put_read(
    table: &mut Table,
    frames: &mut FrameList,
    peer: &Peer,
    place: usize,
    socket: SocketId,
    read: SocketRead,
    bytes: &[u8],
)
    requires at { IsAt table.old place socket }
    requires within { TakesWithin read bytes.now }
    requires few { length bytes.now ≤ MOST_TAKEN }
    requires room { (l : Line) → slice_get table.old.lines place ≡ Some l → length bytes.now ≤ room_on table.old l }
    requires none { table.old.waiting ≡ [] }
    requires players { ArePlayers (players_of peer.now.game) table.old.seats }
    ensures { table.new ≡ read_on (hearer_by peer.now) socket read bytes.now table.old }
{
    let hears = PeerHears { peer };
    match read {
        SocketRead::Took(count) => table.take(place, socket, &bytes[..count], frames, &hears),
        SocketRead::NotYet => table.quiet(place, socket),
        SocketRead::Ended => table.close(place, socket),
        SocketRead::Failed => table.close(place, socket),
    }
}

impl Loop {
    /// Reads of the socket once.
    fn read_once<S: Station>(
        &mut self,
        station: &mut S,
        place: usize,
        socket: SocketId,
    ) -> SocketRead
        requires at { IsAt self.old.table place socket }
        requires ready { IsReadyToRead (S.history station.old) self.old }
        requires wants { WantsAt self.old.table place }
        ensures { ReadsOnce socket result (S.history station.old) (S.history station.new) self.old self.new }
    {
        let most = MOST_TAKEN.min(self.table.room(place) as usize);
        let read = station.read(socket, &mut self.buffer[..most]);
        put_read(
            &mut self.table,
            &mut self.frames,
            &self.peer,
            place,
            socket,
            read,
            &self.buffer[..most],
        );
        read
    }

    /// Reads of the socket once, and handles what came.
    fn read<S: Station>(
        &mut self,
        station: &mut S,
        place: usize,
        socket: SocketId,
    ) -> Result<(), Stop>
        requires at { IsAt self.old.table place socket }
        requires ready { IsReadyToRead (S.history station.old) self.old }
        requires wants { WantsAt self.old.table place }
        ensures { Reads result place socket (S.history station.old) (S.history station.new) self.old self.new }
    {
        self.read_once(station, place, socket);
        self.handle(station)
    }

    /// Reads of the socket until nothing is there, and handles what came.
    fn read_out<S: Station>(
        &mut self,
        station: &mut S,
        place: usize,
        socket: SocketId,
    ) -> Result<(), Stop>
        requires at { IsAt self.old.table place socket }
        requires ready { IsReadyToRead (S.history station.old) self.old }
        ensures { ReadsOut result place socket (S.history station.old) (S.history station.new) self.old self.new }
    {
        while self.wants_read(place) {
            self.read(station, place, socket)?;
        }
        Ok(())
    }

    /// Reads of each socket until nothing is there, and handles what came.
    pub(crate) fn read_all<S: Station>(&mut self, station: &mut S) -> Result<(), Stop>
        requires ready { IsReadyToRead (S.history station.old) self.old }
        ensures { ReadsAll result (S.history station.old) (S.history station.new) self.old self.new }
    {
        for place in 0..self.count() {
            let socket = self.socket_at(place);
            self.read_out(station, place, socket)?;
        }
        Ok(())
    }
}
