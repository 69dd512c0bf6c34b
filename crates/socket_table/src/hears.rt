//! Who hears on the sockets of a table.

ghost use Rattle.std.specs.Prelude.{◌≡◌, ◌<◌, ℕ};

use definitions::{Place, PlayerId};

/// Tells what a HELLO that comes is held against, and from which place on the own HELLO asks for frames.
pub trait Hears {
    ghost use Rattle.loop_rules.specs.Hearing.{Hearer};

    /// The session's id, and the next place of each player.
    ghost hearer: { Self → Hearer };

    /// How many players there are.
    ghost players: { Self → ℕ };

    /// The session's id.
    fn id(&self) -> &[u8; 32]
        ensures { result.now ≡ (hearer self.now).id };

    /// The place of the first frame of the player that isn't there yet.
    fn next(&self, player: PlayerId) -> Place
        requires { player < players self.now }
        ensures { result ≡ (hearer self.now).next player };
}
