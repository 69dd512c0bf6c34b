//! The least spot of the frames that are looked for.

ghost use Rattle.std.specs.Prelude.{◌≡◌, None};
ghost use Rattle.frame_index.specs.Pairs as P;
ghost use Rattle.frame_index.specs.Wants as W;

use crate::seen::{Seen, Wanted};
use definitions::Spot;

/// Whether the frame is looked for.
fn is_wanted(wanted: &Wanted, one: &Seen) -> bool
    ensures { result ≡ W.wants wanted.now one.now }
{
    match *wanted {
        Wanted::Any => true,
        Wanted::Commit => one.frame.is_commit(),
        Wanted::Reveal => !one.frame.is_commit(),
        Wanted::Unlike(digest) => one.digest != digest,
        Wanted::CommitUnlike(digest) => one.frame.is_commit() && one.digest != digest,
        Wanted::RevealUnlike(digest) => !one.frame.is_commit() && one.digest != digest,
        Wanted::Rival(digest, frame) => {
            !one.frame.is_commit() && one.digest == digest && one.frame != frame
        }
    }
}

/// Whether the first spot is lower: by the number of its log, or by its entry in the same one.
pub fn is_before(one: &Spot, other: &Spot) -> bool
    ensures { result ≡ W.is_before one.now other.now }
{
    one.log < other.log || one.log == other.log && one.entry < other.entry
}

/// The spots of the two, the lower first.
pub(crate) fn in_order(one: &Seen, other: &Seen) -> (Spot, Spot)
    ensures { result ≡ P.in_order one.now other.now }
{
    if is_before(&one.spot, &other.spot) {
        (one.spot, other.spot)
    } else {
        (other.spot, one.spot)
    }
}

/// Which of the best so far and one more stands lower: the one more is taken where it is looked for, as `found` says, and no
/// other is there or its spot is lower; else the best stays.
pub fn lower(found: bool, best: Option<Seen>, one: &Seen) -> Option<Seen>
    ensures { result ≡ W.lower found best one.now }
{
    if !found {
        return best;
    }
    match best {
        None => Some(*one),
        Some(other) => {
            if is_before(&one.spot, &other.spot) {
                Some(*one)
            } else {
                best
            }
        }
    }
}

/// The one with the least spot of those that are looked for.
pub(crate) fn least(seen: &[Seen], wanted: &Wanted) -> Option<Seen>
    ensures { result ≡ W.least_from (W.wants wanted.now) None seen.now }
{
    let mut best: Option<Seen> = None;
    for one in seen {
        best = lower(is_wanted(wanted, one), best, one);
    }
    best
}

/// Whether another reveal has the same digest.
fn has_rival(seen: &[Seen], one: &Seen) -> bool
    ensures { result ≡ W.has_rival seen.now one.now }
{
    !one.frame.is_commit() && least(seen, &Wanted::Rival(one.digest, one.frame)).is_some()
}

/// The one with the least spot of those of which another reveal has the same digest.
pub(crate) fn least_rivalled(seen: &[Seen]) -> Option<Seen>
    ensures { result ≡ W.least_from (W.has_rival seen.now) None seen.now }
{
    let mut best: Option<Seen> = None;
    for one in seen {
        best = lower(has_rival(seen, one), best, one);
    }
    best
}
