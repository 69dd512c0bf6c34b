//! The limit of rosters.

/// How many bytes of a file decide what a roster says.
pub const ROSTER_FRONT: usize = 1_048_576;
