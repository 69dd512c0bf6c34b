//! The log that a peer keeps, and why one can't be used.

use crate::frames::TurnFrame;
use crate::openings::Nonce;
use crate::world::{Move, PlayerId, Turn};

/// An entry of a peer's log.
#[derive(Clone, Copy, Debug, PartialEq, Eq)]
pub enum Entry {
    /// The owner chose its move of the turn, and a nonce for it.
    Chose { turn: Turn, mv: Move, nonce: Nonce },
    /// The owner made a frame of its own stream.
    Made(TurnFrame),
    /// The owner received the frame from this player.
    Got(PlayerId, TurnFrame),
}

/// Why a session log can't be used.
#[derive(Clone, Copy, Debug, PartialEq, Eq)]
pub enum LogWhy {
    /// It has more bytes than a log may have.
    TooLong,
    /// Its bytes end before an entry's end.
    Torn,
    /// An entry's chain digest isn't the one that belongs there.
    BadChain,
    /// An entry isn't in the grammar of logs.
    BadEntry,
    /// A peer with the entries before it couldn't have logged an entry.
    NotReplayed,
}
