//! What one log shows of a player's turn, looked up where it is kept: no memory is taken.

ghost use Rattle.std.specs.Prelude.{◌≡◌, ◌<◌, ℕ, List, None, Some, slice_get, option_map, IfSome, IsTrue};
ghost use Rattle.definitions.specs.declared.logs.Entry.{Entry};
ghost use Rattle.definitions.specs.Held as H;
ghost use Rattle.definitions.specs.Lists.{first_of};
ghost use Rattle.definitions.specs.Logs.{digest_eq, got_of};
ghost use Rattle.definitions.specs.World.{Game, players_of, is_open};
ghost use Rattle.frame_index.specs.Frames as F;
ghost use Rattle.frame_index.specs.InLog as N;
ghost use Rattle.frame_index.specs.Judged as J;
ghost use Rattle.frame_index.specs.Kept as K;
ghost use Rattle.frame_index.specs.OfLog as O;
ghost use Rattle.frame_index.specs.Openings.{opening_at};
ghost use Rattle.frame_index.specs.Wants as W;

use crate::frames::FrameIndex;
use crate::kept::{FEW, KeptFrame, place_in};
use crate::least::lower;
use crate::seen::Seen;
use definitions::{Digest, Move, PlayerId, Track, Turn, TurnFrame};
use grid_world::Session;
use move_rules::Walker;
use reveal_check::frame_digest;

/// The lowest of the best so far and of the frame's spots in the log.
fn lower_in(one: &KeptFrame, log: u32, best: Option<Seen>) -> Option<Seen>
    ensures { result ≡ W.least_from (O.stands_in log) best (K.seen_of one.now) }
{
    let mut best = best;
    for spot in one.spots.all() {
        let seen = Seen {
            spot: spot.spot(),
            frame: one.frame,
            digest: one.digest,
        };
        best = lower(spot.log() == log, best, &seen);
    }
    best
}

/// The lowest of the best so far and of the frame's spots in the log, where it commits the turn.
fn lower_commit(one: &KeptFrame, log: u32, turn: Turn, best: Option<Seen>) -> Option<Seen>
    ensures { result ≡ W.least_from (N.takes (H.commit_of turn) log) best (K.seen_of one.now) }
{
    match one.frame.commit_of(turn) {
        None => best,
        Some(_) => lower_in(one, log, best),
    }
}

/// The first that commits the turn in the log.
fn least_commit(kept: &[KeptFrame], log: u32, turn: Turn) -> Option<Seen>
    ensures { result ≡ W.least_from (N.takes (H.commit_of turn) log) None (K.seen_in kept.now) }
{
    let mut best: Option<Seen> = None;
    for one in kept {
        best = lower_commit(one, log, turn, best);
    }
    best
}

/// Whether it is a reveal that opens the digest by a move that is legal from the track.
fn leads(
    session: &Session,
    walker: &mut Walker,
    player: PlayerId,
    track: &Track,
    digest: &Digest,
    one: &KeptFrame,
) -> bool
    requires player { player < players_of session.now }
    requires track { IsTrue (is_open session.now.grid track.now.at) }
    ensures { result ≡ O.leads session.now player track.now digest.now one.now }
{
    match one.frame {
        TurnFrame::Commit { .. } => false,
        TurnFrame::Reveal { mv, .. } => {
            if one.digest != *digest {
                return false;
            }
            walker.legal(session, player, track, &mv).is_ok()
        }
    }
}

/// The lowest of the best so far and of the frame's spots in the log, where it is a reveal that opens the digest by a move that is
/// legal from the track. A frame that the log doesn't have is not judged.
fn lower_opening(
    session: &Session,
    walker: &mut Walker,
    player: PlayerId,
    track: &Track,
    digest: &Digest,
    log: u32,
    one: &KeptFrame,
    best: Option<Seen>,
) -> Option<Seen>
    requires player { player < players_of session.now }
    requires track { IsTrue (is_open session.now.grid track.now.at) }
    ensures { result ≡ W.least_from (J.is_good session.now player track.now digest.now log) best (K.seen_of one.now) }
{
    if !one.spots.has(log) {
        return best;
    }
    if !leads(session, walker, player, track, digest, one) {
        return best;
    }
    lower_in(one, log, best)
}

/// The first reveal in the log that opens the digest by a move that is legal from the track.
fn least_opening(
    session: &Session,
    walker: &mut Walker,
    player: PlayerId,
    track: &Track,
    digest: &Digest,
    log: u32,
    kept: &[KeptFrame],
) -> Option<Seen>
    requires player { player < players_of session.now }
    requires track { IsTrue (is_open session.now.grid track.now.at) }
    ensures { result ≡ W.least_from (J.is_good session.now player track.now digest.now log) None (K.seen_in kept.now) }
{
    let mut best: Option<Seen> = None;
    for one in kept {
        best = lower_opening(session, walker, player, track, digest, log, one, best);
    }
    best
}

/// The move of the reveal and the track after it, where it opens the digest and is legal from the track.
fn opened(
    session: &Session,
    walker: &mut Walker,
    player: PlayerId,
    track: &Track,
    digest: &Digest,
    one: &Seen,
) -> Option<(Move, Track)>
    requires player { player < players_of session.now }
    requires track { IsTrue (is_open session.now.grid track.now.at) }
    ensures opened { result ≡ option_map (O.with_track session.now track.now) (O.move_opened session.now player track.now (digest_eq one.now.digest digest.now) one.now.frame) }
    ensures track { IfSome result (λ x. IsTrue (is_open session.now.grid x.1.at)) }
{
    match one.frame {
        TurnFrame::Commit { .. } => None,
        TurnFrame::Reveal { mv, .. } => {
            if one.digest != *digest {
                return None;
            }
            match walker.legal(session, player, track, &mv) {
                Err(_) => None,
                Ok(next) => Some((mv, next)),
            }
        }
    }
}

impl FrameIndex {
    /// The digest of the first commitment to the turn, counted from 0, that the log of this number got from the player. It is the one
    /// that the log holds, once the places before are there.
    pub fn commit_in(&self, player: PlayerId, turn: Turn, log: u32) -> Option<Digest>
        ensures { (game : Game) (logs : List (List Entry)) (h : List Entry) → F.IsIndex game logs self.now → slice_get logs log ≡ Some h → result ≡ H.first_commit (got_of player h) turn }
    {
        match least_commit(self.kept(player, turn), log, turn) {
            None => None,
            Some(first) => first.frame.commit_of(turn),
        }
    }

    /// The move of the first reveal of the turn, counted from 0, that the log of this number got from the player, that opens the
    /// digest, and that is legal from the player's track; and the track after it.
    pub fn opening_in(
        &self,
        session: &Session,
        walker: &mut Walker,
        player: PlayerId,
        turn: Turn,
        log: u32,
        track: &Track,
        digest: &Digest,
    ) -> Option<(Move, Track)>
        requires player { player < players_of session.now }
        requires track { IsTrue (is_open session.now.grid track.now.at) }
        ensures first { (logs : List (List Entry)) (h : List Entry) → F.IsIndex session.now logs self.now → slice_get logs log ≡ Some h → result ≡ option_map (O.with_track session.now track.now) (first_of (opening_at session.now player track.now digest.now turn) (got_of player h)) }
        ensures track { IfSome result (λ x. IsTrue (is_open session.now.grid x.1.at)) }
    {
        let kept = self.kept(player, turn);
        match least_opening(session, walker, player, track, digest, log, kept) {
            None => None,
            Some(good) => opened(session, walker, player, track, digest, &good),
        }
    }

    /// The frame's digest: the one that it carries, or that of its opening. It is computed only where the frame isn't among the
    /// first few that are kept of its turn.
    pub fn digest(&self, session: &Session, frame: &TurnFrame) -> Digest
        ensures { (logs : List (List Entry)) → F.IsIndex session.now logs self.now → result ≡ H.digest_of session.now frame.now }
    {
        let kept = self.kept_with(frame);
        match place_in(kept, frame, FEW) {
            None => frame_digest(session, frame),
            Some(at) => kept[at].digest,
        }
    }
}
