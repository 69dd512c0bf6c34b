//! The moves of a player of whom all logs show the same, turn by turn for all logs at once.

ghost use Rattle.std.specs.Prelude.{◌≡◌, ◌<◌, ◌≤◌, ◌+◌, ℕ, Bool, List, false, true, length, IfNone, IfOk, IfSome, IsTrue};
ghost use Rattle.definitions.specs.declared.logs.Entry.{Entry};
ghost use Rattle.definitions.specs.World.{is_open, players_of};
ghost use Rattle.frame_index.specs.Frames as F;
ghost use Rattle.frame_index.specs.Heads.{front_of};
ghost use Rattle.frame_index.specs.Plain as P;

use crate::frames::FrameIndex;
use crate::kept::KeptFrame;
use crate::limits::MOST_LOGS;
use crate::plain::{is_plain, move_in, track_behind};
use crate::short_spot::ShortSpot;
use definitions::{Move, PlayerId, Track, Turn, What};
use grid_world::Session;
use move_rules::{Walker, start_track};
use std::alloc::AllocError;

/// By the log's number, whether it is looked at.
pub type Chosen = [bool; MOST_LOGS as usize];

/// Where the commitment stands that is kept.
fn commit_spots(kept: &[KeptFrame]) -> &[ShortSpot]
    ensures { result.now ≡ P.commit_spots kept.now }
{
    match kept {
        [] => &[],
        [one, rest @ ..] => {
            if one.frame.is_commit() {
                one.spots.all()
            } else {
                commit_spots(rest)
            }
        }
    }
}

/// Where the reveal stands that is kept.
fn reveal_spots(kept: &[KeptFrame]) -> &[ShortSpot]
    ensures { result.now ≡ P.reveal_spots kept.now }
{
    match kept {
        [] => &[],
        [one, rest @ ..] => {
            if one.frame.is_commit() {
                reveal_spots(rest)
            } else {
                one.spots.all()
            }
        }
    }
}

/// Leaves those of the logs that have one of the spots.
fn leave(chosen: &mut Chosen, spots: &[ShortSpot])
    ensures { P.AreLeft chosen.old spots.now chosen.new }
{
    let mut left = [false; MOST_LOGS as usize];
    for spot in spots {
        let at = spot.log() as usize;
        if at < left.len() {
            left[at] = chosen[at];
        }
    }
    *chosen = left;
}

/// The first of the logs that are looked at.
fn first_chosen(chosen: &Chosen) -> Option<usize>
    ensures some { IfSome result (λ i. P.is_among chosen.now i ≡ true) }
    ensures none { IfNone result ((i : ℕ) → P.is_among chosen.now i ≡ false) }
{
    for at in 0..MOST_LOGS as usize {
        if chosen[at] {
            return Some(at);
        }
    }
    None
}

/// How far a player is read of whom logs show the same: its track, and which of the logs still show all places.
#[derive(Clone, Copy)]
pub(crate) struct Common {
    pub track: Track,
    pub chosen: Chosen,
}

/// What reading a turn came to.
pub(crate) enum TurnRead {
    /// Not all that is kept of the turn is one legal play.
    Unlike,
    /// None of the logs resolves the turn.
    Over,
    /// Those that resolve the turn do so by this move.
    Shown(Move),
}

/// Reads the turn's commitment, and says whether the turn is plain.
fn read_commit(index: &FrameIndex, player: PlayerId, turn: Turn, common: &mut Common) -> bool
    ensures read { IsTrue result → P.CommitIsRead (F.kept_of index.now player turn) common.old common.new }
    ensures track { common.new.track ≡ common.old.track }
{
    let kept = index.kept(player, turn);
    if !is_plain(kept) {
        return false;
    }
    leave(&mut common.chosen, commit_spots(kept));
    true
}

/// Reads the turn's reveal, and gives the move that it shows, if it is there; none where the turn isn't plain.
fn read_reveal(
    index: &FrameIndex,
    session: &Session,
    walker: &mut Walker,
    player: PlayerId,
    turn: Turn,
    common: &mut Common,
) -> Option<Option<Move>>
    requires player { player < players_of session.now }
    requires track { IsTrue (is_open session.now.grid common.old.track.at) }
    ensures read { IfSome result (λ o. (o ≡ P.move_in (F.kept_of index.now player turn)) × P.RevealIsRead session.now player (F.kept_of index.now player turn) common.old common.new) }
    ensures opens { IsTrue (is_open session.now.grid common.new.track.at) }
{
    let kept = index.kept(player, turn);
    if !is_plain(kept) {
        return None;
    }
    let next = track_behind(session, walker, player, &common.track, kept)?;
    common.track = next;
    leave(&mut common.chosen, reveal_spots(kept));
    Some(move_in(kept))
}

/// Reads the commitments that come before the first reveal, and says whether their turns are plain.
///
/// Each stands at the place of its turn's number, since no reveal comes before it.
fn read_first_commits(
    index: &FrameIndex,
    session: &Session,
    player: PlayerId,
    common: &mut Common,
) -> bool
    ensures track { common.new.track ≡ common.old.track }
    ensures read { IsTrue result → (logs : List (List Entry)) (first : List Bool) → F.IsIndex session.now logs index.now → P.IsCommon session.now player logs first 0 0 common.old → P.IsCommon session.now player logs first (front_of session.now 0) 0 common.new }
{
    session.facts();
    for turn in 0..session.reveal_place(0) {
        if !read_commit(index, player, turn, common) {
            return false;
        }
    }
    true
}

/// Reads the commitment that comes after the turn's reveal, if one does, and says whether its turn is plain.
fn read_next_commit(
    index: &FrameIndex,
    session: &Session,
    player: PlayerId,
    turn: Turn,
    common: &mut Common,
) -> bool
    requires { turn < session.now.turns }
    ensures track { common.new.track ≡ common.old.track }
    ensures read { IsTrue result → (logs : List (List Entry)) (first : List Bool) → F.IsIndex session.now logs index.now → P.IsCommon session.now player logs first (front_of session.now turn + 1) (turn + 1) common.old → P.IsCommon session.now player logs first (front_of session.now (turn + 1)) (turn + 1) common.new }
{
    session.facts();
    let place = session.reveal_place(turn) + 1;
    match session.slot_at(place) {
        None => true,
        Some(next) => match next.what {
            What::Commit => read_commit(index, player, next.turn, common),
            What::Reveal => true,
        },
    }
}

/// Reads the turn's reveal, and the commitment that comes before the next one.
fn read_turn(
    index: &FrameIndex,
    session: &Session,
    walker: &mut Walker,
    player: PlayerId,
    turn: Turn,
    common: &mut Common,
) -> TurnRead
    requires player { player < players_of session.now }
    requires turn { turn < session.now.turns }
    requires track { IsTrue (is_open session.now.grid common.old.track.at) }
    ensures read { P.TurnIsRead session.now index.now player turn common.old common.new result }
    ensures opens { IsTrue (is_open session.now.grid common.new.track.at) }
{
    session.facts();
    let Some(shown) = read_reveal(index, session, walker, player, turn, common) else {
        return TurnRead::Unlike;
    };
    let Some(_left) = first_chosen(&common.chosen) else {
        return TurnRead::Over;
    };
    let Some(mv) = shown else {
        return TurnRead::Unlike;
    };
    if read_next_commit(index, session, player, turn, common) {
        TurnRead::Shown(mv)
    } else {
        TurnRead::Unlike
    }
}

/// Puts the moves by which the chosen logs resolve the player's turns in the place of what `out` had, where what is kept of the player is
/// one legal play; false where it isn't, and then `out` may have any moves. An error comes where `out`'s allocator has no memory.
///
/// Each turn is judged once for all logs, so the time goes by the player's turns and by what is kept of them. Where all turns of the player
/// have such a move, no log shows a finding of it.
pub fn common_moves(
    index: &FrameIndex,
    session: &Session,
    walker: &mut Walker,
    player: PlayerId,
    chosen: &Chosen,
    out: &mut Vec<Move>,
) -> Result<bool, AllocError>
    requires { player < players_of session.now }
    ensures moves { IfOk result (λ told. IsTrue told → (logs : List (List Entry)) → F.IsIndex session.now logs index.now → P.AreCommon session.now player logs chosen.now out.new.items) }
    ensures few { IfOk result (λ told. IsTrue told → length out.new.items ≤ session.now.turns) }
    ensures clear { IfOk result (λ told. IsTrue told → length out.new.items ≡ session.now.turns → P.IsClear session.now index.now player) }
{
    session.facts();
    out.clear();
    let mut common = Common {
        track: start_track(session, player),
        chosen: *chosen,
    };
    if !read_first_commits(index, session, player, &mut common) {
        return Ok(false);
    }
    for turn in 0..session.turns() {
        match read_turn(index, session, walker, player, turn, &mut common) {
            TurnRead::Unlike => return Ok(false),
            TurnRead::Over => return Ok(true),
            TurnRead::Shown(mv) => out.push(mv)?,
        }
    }
    Ok(true)
}
