//! The limit of moves texts.

/// How many bytes of a file decide what a moves text says.
pub const MOVES_FRONT: usize = 1_048_576;
