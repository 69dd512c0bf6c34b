//! What becomes of the wish to seal a frame.

/// What became of the wish to seal a frame.
#[derive(Clone, Copy, Debug, PartialEq, Eq)]
pub enum SealAnswer {
    /// The frame's seal stands in the room for it.
    Done,
    /// Another frame was sealed at its place.
    Used,
    /// The frame isn't the player's, or its turn isn't played.
    Foreign,
}
