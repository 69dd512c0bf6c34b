//! The least pair of spots that shows a kind.

ghost use Rattle.std.specs.Prelude.{◌≡◌, ℕ, List, IfOk};
ghost use Rattle.definitions.specs.declared.findings.Kind.{Kind};
ghost use Rattle.definitions.specs.declared.logs.Entry.{Entry};
ghost use Rattle.definitions.specs.World.{Game};
ghost use Rattle.definitions.specs.Findings.{finding_at};
ghost use Rattle.frame_index.specs.Keeps.{Keeps, finding_by};
ghost use Rattle.frame_index.specs.Pairs as P;

use crate::clashes::are_apart;
use crate::least::{in_order, least, least_rivalled};
use crate::seen::{Seen, Wanted};
use definitions::Spot;
use std::alloc::{AllocError, Global};

/// The least pair of commitments with different digests.
#[tactic(auto, unfolding(crate::specs::Pairs::two_commits))]
fn two_commits_pair(seen: &[Seen]) -> Option<(Spot, Spot)>
    ensures { result ≡ P.two_commits seen.now }
{
    let first = least(seen, &Wanted::Commit)?;
    let second = least(seen, &Wanted::CommitUnlike(first.digest))?;
    Some((first.spot, second.spot))
}

/// The least pair of frames of which at least one is a reveal, and whose digests differ.
#[tactic(auto, unfolding(crate::specs::Pairs::bad_opening))]
fn bad_opening_pair(seen: &[Seen]) -> Option<(Spot, Spot)>
    ensures { result ≡ P.bad_opening seen.now }
{
    let first = least(seen, &Wanted::Any)?;
    let partner = if first.frame.is_commit() {
        Wanted::RevealUnlike(first.digest)
    } else {
        Wanted::Unlike(first.digest)
    };
    if let Some(second) = least(seen, &partner) {
        return Some((first.spot, second.spot));
    }
    let reveal = least(seen, &Wanted::Reveal)?;
    let commit = least(seen, &Wanted::CommitUnlike(first.digest))?;
    Some(in_order(&reveal, &commit))
}

/// The least pair of different reveals with one digest.
#[tactic(auto, unfolding(crate::specs::Pairs::collision))]
fn collision_pair(seen: &[Seen]) -> Option<(Spot, Spot)>
    ensures { result ≡ P.collision seen.now }
{
    let first = least_rivalled(seen)?;
    let second = least(seen, &Wanted::Rival(first.digest, first.frame))?;
    Some((first.spot, second.spot))
}

/// The spots of the finding that a player committed to a turn twice, where each different frame of the turn is kept with
/// its first spot in each log that got it, in any order.
pub fn two_commits(seen: &[Seen]) -> Option<(Spot, Spot)>
    ensures { (game : Game) (logs : List (List Entry)) (q t : ℕ) → Keeps game q t logs seen.now → finding_by q t Kind.TwoCommits result ≡ finding_at game logs q t Kind.TwoCommits }
{
    two_commits_pair(seen)
}

/// The spots of the finding that a frame of a turn opens another digest.
pub fn bad_opening(seen: &[Seen]) -> Option<(Spot, Spot)>
    ensures { (game : Game) (logs : List (List Entry)) (q t : ℕ) → Keeps game q t logs seen.now → finding_by q t Kind.BadOpening result ≡ finding_at game logs q t Kind.BadOpening }
{
    bad_opening_pair(seen)
}

/// As many frames of a turn as are compared with each other. Where more are kept, they are compared only if a table of their
/// digests shows that two different reveals have one.
const FEW: usize = 64;

/// The spots of the finding that two openings of a turn have one digest. Where many frames are kept the time stays linear, but
/// for a turn of which two different reveals do have one digest; the table for it takes memory from `alloc`. An error comes where that has none.
pub fn collision(alloc: Global, seen: &[Seen]) -> Result<Option<(Spot, Spot)>, AllocError>
    ensures { IfOk result (λ pair. (game : Game) (logs : List (List Entry)) (q t : ℕ) → Keeps game q t logs seen.now → finding_by q t Kind.Collision pair ≡ finding_at game logs q t Kind.Collision) }
{
    if seen.len() > FEW && are_apart(alloc, seen)? {
        return Ok(None);
    }
    Ok(collision_pair(seen))
}
