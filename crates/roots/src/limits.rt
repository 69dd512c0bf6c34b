//! The limit of texts of roots.

/// How many bytes of a file decide which roots it says.
pub const ROOTS_FRONT: usize = 1_048_576;
