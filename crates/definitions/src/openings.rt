//! What a commitment is made of.

use crate::world::{Move, PlayerId, Turn};

/// The 32 random bytes that an opening ends with.
#[derive(Clone, Copy, Debug, PartialEq, Eq, Hash)]
pub struct Nonce {
    pub bytes: [u8; 32],
}

/// A SHA-256 digest (FIPS 180-4).
#[derive(Clone, Copy, Debug, PartialEq, Eq, Hash)]
pub struct Digest {
    pub bytes: [u8; 32],
}

/// What a player commits to: its move of a turn, with a nonce. The digest of an opening's bytes is the commitment.
#[derive(Clone, Copy, Debug, PartialEq, Eq)]
pub struct Opening {
    pub player: PlayerId,
    pub turn: Turn,
    pub mv: Move,
    pub nonce: Nonce,
}
