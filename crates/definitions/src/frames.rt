//! The frames of a player's stream: for each turn a commitment and a reveal.

ghost use Rattle.std.specs.Prelude.{◌≡◌};

use crate::openings::{Digest, Nonce};
use crate::world::{Move, PlayerId, Turn};

/// A frame of a player's stream, as it goes over a link.
#[derive(Clone, Copy, Debug, PartialEq, Eq, Hash)]
pub enum TurnFrame {
    /// The player announces the digest of its opening of the turn.
    Commit {
        player: PlayerId,
        turn: Turn,
        digest: Digest,
    },
    /// The player shows the move and the nonce of its opening of the turn.
    Reveal {
        player: PlayerId,
        turn: Turn,
        mv: Move,
        nonce: Nonce,
    },
}

impl TurnFrame {
    ghost use Rattle.definitions.specs.Logs as L;
    ghost use Rattle.definitions.specs.Held as H;
    ghost use Rattle.definitions.specs.Findings as F;

    /// The player whose frame it is.
    pub fn player(&self) -> PlayerId
        ensures { result ≡ L.player_of self.now }
    {
        match *self {
            TurnFrame::Commit { player, .. } => player,
            TurnFrame::Reveal { player, .. } => player,
        }
    }

    /// The turn of which it is.
    pub fn turn(&self) -> Turn
        ensures { result ≡ L.turn_of self.now }
    {
        match *self {
            TurnFrame::Commit { turn, .. } => turn,
            TurnFrame::Reveal { turn, .. } => turn,
        }
    }

    /// Whether it is a commitment.
    pub fn is_commit(&self) -> bool
        ensures { result ≡ F.is_commit self.now }
    {
        match *self {
            TurnFrame::Commit { .. } => true,
            TurnFrame::Reveal { .. } => false,
        }
    }

    /// The digest to which it commits the turn; None where it is a reveal, or commits another turn.
    pub fn commit_of(&self, turn: Turn) -> Option<Digest>
        ensures { result ≡ H.commit_of turn self.now }
    {
        match *self {
            TurnFrame::Commit {
                turn: of,
                digest,
                ..
            } => { if of == turn { Some(digest) } else { None } }
            TurnFrame::Reveal { .. } => None,
        }
    }
}

/// Which of a turn's two frames.
#[derive(Clone, Copy, Debug, PartialEq, Eq)]
pub enum What {
    Commit,
    Reveal,
}
