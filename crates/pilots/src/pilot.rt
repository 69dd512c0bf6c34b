//! Who chooses a player's moves.

ghost use Rattle.std.specs.Prelude.{◌≡◌, Option, IfSome};

use definitions::{Move, Track, Turn};

/// Chooses the moves of a player.
pub trait Pilot {
    ghost use Rattle.pilots.specs.Plans.{Plan};

    // The plan that the pilot tells, if it tells one.
    ghost plan: { Self → Option Plan };

    /// The move of the turn, by where the player stands before it. Whether it is legal is for the caller to ask.
    fn choose(&mut self, track: &Track, turn: Turn) -> Move
        // A choice is the plan's, where one is told.
        ensures planned { IfSome (plan self.old) (λ p. result ≡ p track.now turn) }
        // No choice changes the plan.
        ensures kept { plan self.new ≡ plan self.old };
}
