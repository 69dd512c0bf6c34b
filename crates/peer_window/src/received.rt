//! What a window holds, and what it answers.

use definitions::{Finding, TurnFrame};

/// A frame that came, and the number of the log's entry that has it, counted from 0.
#[derive(Clone, Copy, Debug, PartialEq, Eq)]
pub struct Received {
    pub entry: u32,
    pub frame: TurnFrame,
}

/// What becomes of a frame that is offered.
#[derive(Clone, Copy, Debug, PartialEq, Eq)]
pub enum Offer {
    /// It was the next one, and is held.
    Taken,
    /// Frames before it are missing. It is held, and counts once they come.
    Stashed,
    /// An equal frame is held already. Nothing changed.
    Same,
    /// Its place is more than eight past the next one, or past the last turn. Nothing changed.
    Far,
    /// It is held, and with it the frames show that the player broke the protocol: their first
    /// finding, by turn, kind and entries, whose spots are those of a log alone.
    Conflict(Finding),
}
