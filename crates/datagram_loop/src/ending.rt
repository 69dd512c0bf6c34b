//! A loop as its end tells of it.

ghost use Rattle.datagram_loop.specs.States.{held_by};

use crate::looping::PostLoop;
use definitions::{Place, PlayerId};
use loop_ends::Played;
use peer_core::Peer;

impl Played for PostLoop {
    ghost peer = { λ l. l.peer };

    ghost held = { λ l q. held_by l q };

    fn peer(&self) -> &Peer {
        &self.peer
    }

    fn held(&self, player: PlayerId) -> Place {
        self.asked(player)
    }
}
