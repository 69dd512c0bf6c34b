//! What the lines before those of the frames say.

ghost use Rattle.std.specs.Prelude.{◌≡◌};
ghost use Rattle.evidence.specs.Reading.{head_of};

use crate::exhibit::Exhibit;
use definitions::{Kind, PlayerId, Turn};

/// Who is accused, of which turn, and of what: what stands before the frames in the text of an
/// exhibit, whatever its version.
#[derive(Clone, Copy)]
pub struct Head {
    /// The player that is accused.
    pub player: PlayerId,
    /// The turn, counted from 0.
    pub turn: Turn,
    /// What the frames are to show.
    pub kind: Kind,
}

impl Exhibit {
    /// What stands before the frames in the text of the exhibit.
    pub fn head(&self) -> Head
        ensures { result ≡ head_of self.now }
    {
        Head {
            player: self.player,
            turn: self.turn,
            kind: self.kind,
        }
    }
}
