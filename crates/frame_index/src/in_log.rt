//! What one log holds, by what is kept.

ghost use Rattle.std.specs.Prelude.{◌≡◌, ℕ, List, None, Some, slice_get};
ghost use Rattle.definitions.specs.declared.logs.Entry.{Entry};
ghost use Rattle.definitions.specs.World.{Game};
ghost use Rattle.definitions.specs.Logs.{got_of};
ghost use Rattle.definitions.specs.Held as H;
ghost use Rattle.frame_index.specs.Keeps.{Keeps};
ghost use Rattle.frame_index.specs.InLog as N;
ghost use Rattle.frame_index.specs.Wants as W;

use crate::least::lower;
use crate::seen::Seen;
use definitions::{Digest, Turn};

/// Whether it stands in the log and commits the turn.
fn commits_in(one: &Seen, log: u32, turn: Turn) -> bool
    ensures { result ≡ N.takes (H.commit_of turn) log one.now }
{
    one.spot.log == log && one.frame.commit_of(turn).is_some()
}

/// The first that commits the turn in the log.
pub(crate) fn first_in(seen: &[Seen], log: u32, turn: Turn) -> Option<Seen>
    ensures { result ≡ W.least_from (N.takes (H.commit_of turn) log) None seen.now }
{
    let mut best: Option<Seen> = None;
    for one in seen {
        best = lower(commits_in(one, log, turn), best, one);
    }
    best
}

/// The digest of the first commitment to the turn that the log got from the player, which is the one that it holds once the
/// places before are there.
pub(crate) fn first_commit_in(seen: &[Seen], log: u32, turn: Turn) -> Option<Digest>
    ensures { (game : Game) (logs : List (List Entry)) (q : ℕ) (h : List Entry) → Keeps game q turn logs seen.now → slice_get logs log ≡ Some h → result ≡ H.first_commit (got_of q h) turn }
{
    match first_in(seen, log, turn) {
        None => None,
        Some(first) => first.frame.commit_of(turn),
    }
}
