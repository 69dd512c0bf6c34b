//! The frames by which a log resolved a player's turns.

ghost use Rattle.std.specs.Prelude.{◌≡◌, ◌++◌, ◌+◌, ◌<◌, ◌≤◌, ℕ, List, None, Some, slice_get, length, take, IfSome, IsTrue, OnOk};
ghost use Rattle.definitions.specs.declared.logs.Entry.{Entry};
ghost use Rattle.definitions.specs.Findings as D;
ghost use Rattle.definitions.specs.Logs.{got_of};
ghost use Rattle.definitions.specs.Moves.{track_after};
ghost use Rattle.definitions.specs.World.{is_open, players_of};
ghost use Rattle.frame_index.specs.Frames.{IsIndex};
ghost use Rattle.frame_index.specs.Keeps.{Keeps};
ghost use Rattle.frame_index.specs.Wants as W;
ghost use Rattle.evidence.specs.Showing.{turn_shown, turns_shown};
ghost use Rattle.auditor.specs.Exhibits as X;

use definitions::{PlayerId, Track, Turn, TurnFrame};
use frame_index::judged::{judged, least_good};
use frame_index::least::lower;
use frame_index::{FrameIndex, Seen};
use grid_world::Session;
use move_rules::{Walker, start_track};
use std::alloc::{AllocError, Global};

/// A turn that a log resolved: the commitment, the reveal that opens it, and the player's track after it.
#[derive(Clone, Copy)]
pub(crate) struct Resolved {
    pub commit: TurnFrame,
    pub reveal: TurnFrame,
    pub track: Track,
}

/// Whether it is a commitment in the log.
fn commits_in(one: &Seen, log: u32) -> bool
    ensures { result ≡ X.commits_in log one.now }
{
    match one.frame {
        TurnFrame::Commit { .. } => one.spot.log == log,
        TurnFrame::Reveal { .. } => false,
    }
}

/// The first commitment of the log.
fn first_commit(seen: &[Seen], log: u32) -> Option<Seen>
    ensures { result ≡ W.least_from (X.commits_in log) None seen.now }
{
    let mut best: Option<Seen> = None;
    for one in seen {
        best = lower(commits_in(one, log), best, one);
    }
    best
}

/// How the log resolved the turn of which each different frame is kept, from the player's track before it.
pub(crate) fn resolved_in(
    session: &Session,
    walker: &mut Walker,
    player: PlayerId,
    track: &Track,
    log: u32,
    seen: &[Seen],
) -> Option<Resolved>
    requires player { player < players_of session.now }
    requires track { IsTrue (is_open session.now.grid track.now.at) }
    ensures { result ≡ X.resolved_kept session.now player track.now log seen.now }
{
    let commit = first_commit(seen, log)?;
    let reveal = least_good(session, walker, player, track, &commit.digest, log, seen)?;
    let next = judged(session, walker, player, track, &commit.digest, &reveal)?;
    Some(Resolved {
        commit: commit.frame,
        reveal: reveal.frame,
        track: next.ok()?,
    })
}

/// Puts the two frames of a turn behind the others by which the log resolved it, and goes on to the track after it.
fn put_turn(
    index: &FrameIndex,
    session: &Session,
    walker: &mut Walker,
    player: PlayerId,
    turn: Turn,
    log: u32,
    track: &mut Track,
    seen: &mut Vec<Seen>,
    out: &mut Vec<TurnFrame>,
) -> Result<(), AllocError>
    requires player { player < players_of session.now }
    requires track { IsTrue (is_open session.now.grid track.old.at) }
    ensures track { IsTrue (is_open session.now.grid track.new.at) }
    ensures turn { OnOk result ((logs : List (List Entry)) (h : List Entry) → IsIndex session.now logs index.now → slice_get logs log ≡ Some h → X.IsBefore session.now player turn h track.old → (out.new.items ≡ out.old.items ++ turn_shown session.now player (D.got_known session.now player h) (got_of player h) turn) × (track.new ≡ track_after session.now player (take (turn + 1) (D.got_known session.now player h).moves))) }
{
    index.gather(player, turn, seen)?;
    if let Some(resolved) = resolved_in(session, walker, player, track, log, seen) {
        out.push(resolved.commit)?;
        out.push(resolved.reveal)?;
        *track = resolved.track;
    }
    Ok(())
}

/// Puts the frames of the turns before this one behind the others by which the log resolved them.
pub(crate) fn put_turns(
    alloc: Global,
    index: &FrameIndex,
    session: &Session,
    player: PlayerId,
    turn: Turn,
    log: u32,
    seen: &mut Vec<Seen>,
    out: &mut Vec<TurnFrame>,
) -> Result<(), AllocError>
    requires player { player < players_of session.now }
    ensures { OnOk result ((logs : List (List Entry)) (h : List Entry) → IsIndex session.now logs index.now → slice_get logs log ≡ Some h → turn ≤ length (D.got_known session.now player h).moves → out.new.items ≡ out.old.items ++ turns_shown session.now player turn h) }
{
    let mut walker = Walker::new(alloc, session.grid())?;
    let mut track = start_track(session, player);
    for before in 0..turn {
        put_turn(
            index,
            session,
            &mut walker,
            player,
            before,
            log,
            &mut track,
            seen,
            out,
        )?;
    }
    Ok(())
}
