//! What a log's entries show of a player who broke the protocol.

use crate::world::{PlayerId, Turn};

/// What two frames of one player and turn show of the player, in the order in which findings are listed.
#[derive(Clone, Copy, Debug, PartialEq, Eq)]
pub enum Kind {
    /// Two commitments have different digests.
    TwoCommits,
    /// Two frames, at least one of them a reveal, have different digests.
    BadOpening,
    /// Two reveals have different openings and one digest: two byte strings with one SHA-256 digest.
    Collision,
    /// A reveal opens the commitment held, and its move is not legal after the turns before.
    Illegal,
}

/// Where an entry stands: its log's number among the logs given and its own number in the log, both counted from 0.
#[derive(Clone, Copy, Debug, PartialEq, Eq)]
pub struct Spot {
    pub log: u32,
    pub entry: u32,
}

/// What two received frames show of a player's turn. The first spot is the lower one.
#[derive(Clone, Copy, Debug, PartialEq, Eq)]
pub struct Finding {
    pub player: PlayerId,
    pub turn: Turn,
    pub kind: Kind,
    pub first: Spot,
    pub second: Spot,
}
