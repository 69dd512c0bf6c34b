//! The reveals of a turn that open the digest held, and what their moves are worth.

ghost use Rattle.std.specs.Prelude.{◌≡◌, ◌<◌, ℕ, List, None, Some, slice_get, option_map, IsTrue, IfSome};
ghost use Rattle.definitions.specs.declared.logs.Entry.{Entry};
ghost use Rattle.definitions.specs.Lists.{first_of};
ghost use Rattle.definitions.specs.Logs.{got_of};
ghost use Rattle.definitions.specs.Moves.{next_track};
ghost use Rattle.definitions.specs.World.{players_of, is_open};
ghost use Rattle.frame_index.specs.Openings.{opening_at};
ghost use Rattle.frame_index.specs.Judged as J;
ghost use Rattle.frame_index.specs.Keeps.{Keeps};
ghost use Rattle.frame_index.specs.Wants as W;

use crate::least::lower;
use crate::seen::Seen;
use definitions::{Digest, MoveFault, PlayerId, Track, TurnFrame};
use grid_world::Session;
use move_rules::Walker;

/// What the move of the reveal leads to from the player's track, or why it isn't legal, where it opens the digest; None where it
/// doesn't, or is no reveal.
pub fn judged(
    session: &Session,
    walker: &mut Walker,
    player: PlayerId,
    track: &Track,
    digest: &Digest,
    one: &Seen,
) -> Option<Result<Track, MoveFault>>
    requires player { player < players_of session.now }
    requires track { IsTrue (is_open session.now.grid track.now.at) }
    ensures { result ≡ J.judged session.now player track.now digest.now one.now }
{
    match one.frame {
        TurnFrame::Commit { .. } => None,
        TurnFrame::Reveal { mv, .. } => {
            if one.digest != *digest {
                return None;
            }
            Some(walker.legal(session, player, track, &mv))
        }
    }
}

/// Whether it stands in the log of this number, opens the digest, and is legal from the player's track.
pub fn is_good(
    session: &Session,
    walker: &mut Walker,
    player: PlayerId,
    track: &Track,
    digest: &Digest,
    log: u32,
    one: &Seen,
) -> bool
    requires player { player < players_of session.now }
    requires track { IsTrue (is_open session.now.grid track.now.at) }
    ensures { result ≡ J.is_good session.now player track.now digest.now log one.now }
{
    if one.spot.log != log {
        return false;
    }
    match judged(session, walker, player, track, digest, one) {
        None => false,
        Some(verdict) => verdict.is_ok(),
    }
}

/// Whether it stands in the log, opens the digest, and isn't legal.
fn is_wrong(
    session: &Session,
    walker: &mut Walker,
    player: PlayerId,
    track: &Track,
    digest: &Digest,
    log: u32,
    one: &Seen,
) -> bool
    requires player { player < players_of session.now }
    requires track { IsTrue (is_open session.now.grid track.now.at) }
    ensures { result ≡ J.is_wrong session.now player track.now digest.now log one.now }
{
    if one.spot.log != log {
        return false;
    }
    match judged(session, walker, player, track, digest, one) {
        None => false,
        Some(verdict) => verdict.is_err(),
    }
}

/// The one with the least spot of those that stand in the log of this number, open the digest, and are legal from the player's
/// track; None where there is none.
pub fn least_good(
    session: &Session,
    walker: &mut Walker,
    player: PlayerId,
    track: &Track,
    digest: &Digest,
    log: u32,
    seen: &[Seen],
) -> Option<Seen>
    requires player { player < players_of session.now }
    requires track { IsTrue (is_open session.now.grid track.now.at) }
    ensures { result ≡ W.least_from (J.is_good session.now player track.now digest.now log) None seen.now }
{
    let mut best: Option<Seen> = None;
    for one in seen {
        best = lower(
            is_good(session, walker, player, track, digest, log, one),
            best,
            one,
        );
    }
    best
}

/// The first wrong reveal of the log.
pub(crate) fn least_wrong(
    session: &Session,
    walker: &mut Walker,
    player: PlayerId,
    track: &Track,
    digest: &Digest,
    log: u32,
    seen: &[Seen],
) -> Option<Seen>
    requires player { player < players_of session.now }
    requires track { IsTrue (is_open session.now.grid track.now.at) }
    ensures { result ≡ W.least_from (J.is_wrong session.now player track.now digest.now log) None seen.now }
{
    let mut best: Option<Seen> = None;
    for one in seen {
        best = lower(
            is_wrong(session, walker, player, track, digest, log, one),
            best,
            one,
        );
    }
    best
}

/// The player's track after the first reveal of the turn in the log that opens the digest and is legal from the track, where
/// each different frame of the turn is kept with its first spot in the log.
pub(crate) fn first_opening(
    session: &Session,
    walker: &mut Walker,
    player: PlayerId,
    track: &Track,
    digest: &Digest,
    log: u32,
    seen: &[Seen],
) -> Option<Track>
    requires player { player < players_of session.now }
    requires track { IsTrue (is_open session.now.grid track.now.at) }
    ensures first { (t : ℕ) (logs : List (List Entry)) (h : List Entry) → Keeps session.now player t logs seen.now → slice_get logs log ≡ Some h → result ≡ option_map (next_track session.now track.now) (first_of (opening_at session.now player track.now digest.now t) (got_of player h)) }
    ensures track { IfSome result (λ x. IsTrue (is_open session.now.grid x.at)) }
{
    match least_good(session, walker, player, track, digest, log, seen) {
        None => None,
        Some(good) => match judged(session, walker, player, track, digest, &good) {
            None => None,
            Some(verdict) => verdict.ok(),
        },
    }
}
