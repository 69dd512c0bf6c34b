//! What a peer tells of a player and of its next choice.

use definitions::{Place, Track, Turn};

/// What a peer is to choose next: the number of the turn, counted from 0, and the track that its moves so far give.
#[derive(Clone, Copy, Debug, PartialEq, Eq)]
pub struct Choice {
    pub turn: Turn,
    pub track: Track,
}

/// What a peer knows of a player: how many of its turns are resolved, its track after them, and the next place of its
/// stream, counted from 0.
#[derive(Clone, Copy, Debug, PartialEq, Eq)]
pub struct PlayerView {
    pub turns: u32,
    pub track: Track,
    pub next: Place,
}
