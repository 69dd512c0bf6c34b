//! Why a loop stops.

use definitions::{Finding, MoveFault, Turn};

/// Why a loop stops: the calls that may stop it hand this on, up to the end of a settling. None of
/// them polls.
#[derive(Clone, Copy, Debug, PartialEq, Eq)]
pub(crate) enum Stop {
    /// The log has no finding, all own turns are made, nobody is waited for, and no bytes wait.
    Done,
    /// The log has a finding: this is its first. All that is kept is synced.
    Caught(Finding),
    /// `keep` or `sync` failed.
    KeepFault,
    /// The pilot's move of this turn is not legal. All that is kept is synced.
    OwnMove(Turn, MoveFault),
}
