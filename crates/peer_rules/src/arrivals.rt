//! Frames that came and are not handled yet.

use definitions::{PlayerId, TurnFrame};

/// A frame that came whole on a socket of this player's name.
#[derive(Clone, Copy, Debug, PartialEq, Eq)]
pub struct Arrival {
    pub player: PlayerId,
    pub frame: TurnFrame,
}
