//! Limits of the loop over datagrams.

/// How many datagrams are taken between two polls at most.
pub const MOST_DATAGRAMS: u32 = 4096;

/// How many own frames are sent to a player between two polls at most.
pub const MOST_FRAMES: u32 = 4;
