//! The peer as who hears on the sockets of its table.

ghost use Rattle.std.specs.Prelude.{◌≡◌, ◌<◌};
ghost use Rattle.definitions.specs.World.{players_of};
ghost use Rattle.ready_loop.specs.Hearers.{hearer_by};

use definitions::{Place, PlayerId};
use peer_core::Peer;
use socket_table::Hears;

/// A peer that is asked what it hears by.
#[derive(Clone, Copy)]
pub(crate) struct PeerHears<'a> {
    pub peer: &'a Peer,
}

impl Hears for PeerHears<'_> {
    ghost hearer = { λ h. hearer_by h.peer.now };

    ghost players = { λ h. players_of h.peer.now.game };

    /// The session's id.
    fn id(&self) -> &[u8; 32]
        ensures { result.now ≡ (hearer_by self.now.peer.now).id }
    {
        self.peer.session().id()
    }

    /// The place of the first frame of the player that the log lacks.
    fn next(&self, player: PlayerId) -> Place
        requires { player < players_of self.now.peer.now.game }
        ensures { result ≡ (hearer_by self.now.peer.now).next player }
    {
        self.peer.player(player).next
    }
}
