//! A letter.

use definitions::{PlayerId, TurnFrame};
use wire_frames::Place;

/// What a datagram says: a greeting, and perhaps one frame of the player who greets.
#[derive(Clone, Copy, Debug, PartialEq, Eq)]
pub struct Letter {
    /// The session's id.
    pub id: [u8; 32],
    /// Who speaks.
    pub player: PlayerId,
    /// What shows the other player who speaks.
    pub pass: [u8; 16],
    /// The place in the other player's stream that is wanted next, counted from 0.
    pub next: Place,
    /// A commitment or a reveal of the player who speaks, if the letter brings one.
    pub frame: Option<TurnFrame>,
}
