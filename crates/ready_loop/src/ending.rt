//! A loop as its end tells of it.

ghost use Rattle.ready_loop.specs.Counts.{held_by};

use crate::ready::Loop;
use definitions::{Place, PlayerId};
use loop_ends::Played;
use peer_core::Peer;

impl Played for Loop {
    ghost peer = { λ l. l.peer };

    ghost held = { λ l q. held_by l q };

    fn peer(&self) -> &Peer {
        &self.peer
    }

    fn held(&self, player: PlayerId) -> Place {
        self.given(player)
    }
}
