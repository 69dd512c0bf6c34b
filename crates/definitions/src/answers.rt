//! What a peer answers, and whom it waits for.

use crate::findings::Finding;
use crate::frames::What;
use crate::places::Place;
use crate::world::{MoveFault, PlayerId, Turn};

/// A frame of another player that a peer waits for.
#[derive(Clone, Copy, Debug, PartialEq, Eq)]
pub struct Need {
    /// The player that is waited for.
    pub player: PlayerId,
    /// The turn of which a frame is missing.
    pub turn: Turn,
    /// The place that is next in the player's stream.
    pub next: Place,
    /// Which of the turn's frames is missing.
    pub what: What,
}

/// Why a peer refuses a choice of its own player.
#[derive(Clone, Copy, Debug, PartialEq, Eq)]
pub enum OwnFault {
    /// No move may be chosen at present.
    NotNow,
    /// A move may be chosen, and this one is not legal.
    Illegal(MoveFault),
}

/// How far a peer came by itself.
#[derive(Clone, Copy, Debug, PartialEq, Eq)]
pub enum Progress {
    /// So many frames were made.
    Made(u8),
    /// No frame could be made, and a move may be chosen.
    Choose,
    /// No frame could be made, and another player is waited for.
    Waits,
    /// All own frames are made, and all turns of the others are resolved.
    Done,
    /// The log has a finding, and nothing is made any more.
    Caught(Finding),
}

/// What becomes of a frame that a peer receives.
#[derive(Clone, Copy, Debug, PartialEq, Eq)]
pub enum GotAnswer {
    /// It was the next frame of its player, and is in the log.
    Taken,
    /// Frames before it are missing. It is in the log and counts once they come.
    Stashed,
    /// The log has this very frame already. Nothing changed.
    Same,
    /// Its place is past the window, or the session has no such turn. Nothing changed.
    Far,
    /// It is not a frame of the other player of the session from whom it came. Nothing changed.
    Foreign,
    /// It is in the log, and with it the log has a finding: this is the first.
    Caught(Finding),
    /// The log had a finding before. Nothing changed.
    Closed,
}
