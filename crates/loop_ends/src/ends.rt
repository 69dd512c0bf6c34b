//! How a loop begins and ends.

ghost use Rattle.std.specs.Prelude.{◌≡◌, ℕ};
ghost use Rattle.peer_core.specs.Views.{PeerState};

use definitions::{Finding, MoveFault, Place, PlayerId, Turn};
use peer_core::Peer;

/// How a beginning ended.
#[derive(Clone, Copy, Debug, PartialEq, Eq)]
pub enum Begun {
    /// The log is begun, and the own address heard at: the loop may play.
    Ready,
    /// A call of the log failed.
    KeepFault,
    /// The own address couldn't be heard at.
    PollFault,
}

/// How a run ended.
#[derive(Clone, Copy, Debug, PartialEq, Eq)]
pub enum Ended {
    /// The log has no finding, all own turns are made, nobody is waited for, and nothing is left to
    /// be given.
    Done,
    /// The log has a finding: this is its first.
    Caught(Finding),
    /// `poll` failed.
    PollFault,
    /// `keep` or `sync` failed.
    KeepFault,
    /// The pilot's move of this turn, counted from 0, is not legal: this is its first fault.
    OwnMove(Turn, MoveFault),
    /// All polls were made, what they brought is handled, and a further one is licensed.
    GaveUp,
}

/// A loop that played, as its end tells of it.
pub trait Played {
    /// The peer.
    ghost peer: { Self → PeerState };

    /// How many own frames a player has, as far as is known.
    ghost held: { Self → ℕ → ℕ };

    /// The peer.
    fn peer(&self) -> &Peer
        ensures { result.now ≡ peer self.now };

    /// How many own frames the player has, as far as is known, from the first one on.
    fn held(&self, player: PlayerId) -> Place
        ensures { result ≡ held self.now player };
}
