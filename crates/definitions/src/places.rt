//! Places: the order in which a player's frames stand in its stream.

use crate::frames::What;
use crate::world::Turn;

/// The place of a frame of the session in its player's stream, counted from 0. Two for each turn: all are below twice the
/// session's turns.
pub type Place = u32;

/// The place of any frame, also of one whose turn isn't played. A frame may have any turn, so that its place may pass 32 bits.
pub type FramePlace = u64;

/// One of the two frames of a turn.
#[derive(Clone, Copy, Debug, PartialEq, Eq)]
pub struct Slot {
    pub what: What,
    pub turn: Turn,
}
