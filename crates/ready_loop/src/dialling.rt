//! Players are dialled.

ghost use Rattle.std.specs.Prelude.{◌≡◌, ◌<◌, Some, length, slice_get};
ghost use Rattle.definitions.specs.Held.{next_place};
ghost use Rattle.definitions.specs.World.{players_of};
ghost use Rattle.socket_lines.specs.declared.seat.Seat.{Seat};
ghost use Rattle.loop_rules.specs.Rules as R;
ghost use Rattle.ready_loop.specs.Serving.{IsServing, IsNextDial, Dials};

use crate::ready::Loop;
use definitions::{Place, PlayerId};
use rosters::Link;
use socket_station::{Addr, Dial, Station};

impl Loop {
    /// How many other players there are.
    fn others(&self) -> usize
        ensures { result ≡ length self.now.table.seats }
    {
        self.table.seats().len()
    }

    /// Whether the player of the seat is to be dialled.
    fn wants_dial(&self, seat: usize) -> bool
        requires { seat < length self.now.table.seats }
        ensures { (c : Seat) → slice_get self.now.table.seats seat ≡ Some c → result ≡ R.wants_dial self.now.peer.me self.now.table c }
    {
        self.table.wants_dial(self.peer.me(), seat)
    }

    /// The place of the seat of a player that is to be dialled, if there is one.
    pub(crate) fn next_dial(&self) -> Option<usize>
        ensures { IsNextDial self.now result }
    {
        for seat in 0..self.others() {
            if self.wants_dial(seat) {
                return Some(seat);
            }
        }
        None
    }

    /// Where the player of the seat is.
    fn link_at(&self, seat: usize) -> Link
        requires { seat < length self.now.table.seats }
        ensures link { (c : Seat) → slice_get self.now.table.seats seat ≡ Some c → result ≡ c.link }
        ensures player { result.player < players_of self.now.peer.game }
    {
        self.table.seats()[seat].link
    }

    /// The next place of the player.
    fn next_of(&self, player: PlayerId) -> Place
        requires { player < players_of self.now.peer.game }
        ensures { result ≡ next_place self.now.peer.game self.now.peer.me self.now.peer.entries player }
    {
        self.peer.player(player).next
    }

    /// Dials the player of the seat.
    pub(crate) fn dial<S: Station>(&mut self, station: &mut S, seat: usize)
        requires serving { IsServing (S.history station.old) self.old }
        requires next { IsNextDial self.old (Some seat) }
        ensures { Dials (S.history station.old) (S.history station.new) self.old self.new }
    {
        let link = self.link_at(seat);
        let next = self.next_of(link.player);
        let ip = link.addr.ip;
        let addr = Addr {
            ip,
            port: link.addr.port,
        };
        match station.dial(link.player, addr) {
            Dial::Socket(socket) => self.table.dialled(seat, link.player, socket, next),
            Dial::Failed => self.table.dial_seat(seat, link.player),
        }
    }
}
