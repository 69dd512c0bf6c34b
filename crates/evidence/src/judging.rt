//! Whether frames show what they are to show.

ghost use Rattle.std.specs.Prelude.{◌≡◌, ◌<◌, []};
ghost use Rattle.definitions.specs.World.{players_of};
ghost use Rattle.definitions.specs.Exhibits as E;
ghost use Rattle.definitions.specs.Findings as F;
ghost use Rattle.evidence.specs.Judging as J;

use crate::exhibit::Exhibit;
use definitions::{Kind, Move, PlayerId, Turn, TurnFrame};
use grid_world::Session;
use move_rules::{Walker, start_track};
use reveal_check::{frame_digest, same_digest};

/// Whether the frame is of this player and turn.
fn is_of_turn(player: PlayerId, turn: Turn, frame: &TurnFrame) -> bool
    ensures { result ≡ E.is_of_turn player turn frame.now }
{
    frame.player() == player && frame.turn() == turn
}

/// Whether the frame is a reveal, and no commitment.
fn is_reveal(frame: &TurnFrame) -> bool
    ensures { result ≡ F.is_reveal frame.now }
{
    matches!(frame, TurnFrame::Reveal { .. })
}

/// Whether the two frames show this kind, where it is one that two frames of a turn show. An illegal move is shown turn by turn,
/// also where its turn is the first and has these two frames alone.
fn pair_shows(session: &Session, kind: Kind, first: &TurnFrame, second: &TurnFrame) -> bool
    ensures { result ≡ J.pair_shows session.now kind first.now second.now }
{
    match kind {
        Kind::TwoCommits => {
            !is_reveal(first) && !is_reveal(second) && !same_digest(session, first, second)
        }
        Kind::BadOpening => {
            (is_reveal(first) || is_reveal(second)) && !same_digest(session, first, second)
        }
        Kind::Collision => {
            is_reveal(first)
                && is_reveal(second)
                && first != second
                && same_digest(session, first, second)
        }
        Kind::Illegal => false,
    }
}

/// Whether there are two frames, both of this player and turn, that show this kind.
fn are_pair(
    session: &Session,
    player: PlayerId,
    turn: Turn,
    kind: Kind,
    frames: &[TurnFrame],
) -> bool
    ensures { result ≡ E.are_two_of player turn (J.pair_shows session.now kind) frames.now }
{
    match frames {
        [first, second] => {
            is_of_turn(player, turn, first)
                && is_of_turn(player, turn, second)
                && pair_shows(session, kind, first, second)
        }
        _ => false,
    }
}

/// The move of the player's turn, where the first frame commits to it and the second one opens that.
fn move_opened(
    session: &Session,
    player: PlayerId,
    turn: Turn,
    first: &TurnFrame,
    second: &TurnFrame,
) -> Option<Move>
    ensures { result ≡ J.move_opened session.now player turn first.now second.now }
{
    if !is_of_turn(player, turn, first) || !is_of_turn(player, turn, second) {
        return None;
    }
    match (*first, *second) {
        (TurnFrame::Commit { digest, .. }, TurnFrame::Reveal { mv, .. })
            if digest == frame_digest(session, second) => { Some(mv) }
        _ => None,
    }
}

/// Whether the frames are the commitment and the reveal of each turn up to the last one, and the move of that one is the
/// first that isn't legal.
fn ends_illegal(
    session: &Session,
    walker: &mut Walker,
    player: PlayerId,
    last: Turn,
    frames: &[TurnFrame],
) -> bool
    requires { player < players_of session.now }
    ensures { result ≡ E.end_illegal session.now player last frames.now [] }
{
    session.facts();
    let mut track = start_track(session, player);
    let mut turn = 0;
    let mut rest = frames;
    while let [first, second, after @ ..] = rest {
        let Some(mv) = move_opened(session, player, turn, first, second) else {
            return false;
        };
        let verdict = walker.legal(session, player, &track, &mv);
        if turn == last {
            return verdict.is_err() && after.is_empty();
        }
        let Ok(next) = verdict else {
            return false;
        };
        track = next;
        turn += 1;
        rest = after;
    }
    false
}

/// Whether the frames show, without any log, what the exhibit says of its player and turn.
///
/// The player and the turn have to be the session's. Two commitments are to have different digests; of a bad opening one frame at
/// least is a reveal, and the digests differ; of a collision two reveals differ that have one digest. Of an illegal move there is
/// the commitment and the reveal that opens it of each turn, and the move of the exhibit's turn is the first that isn't legal. The
/// call takes no memory, and time by the number of frames.
#[tactic(auto, unfolding(definitions::specs::Exhibits::are_of_kind))]
pub fn judge(session: &Session, walker: &mut Walker, exhibit: &Exhibit) -> bool
    ensures { result ≡ E.shows session.now exhibit.now.player exhibit.now.turn exhibit.now.kind exhibit.now.frames }
{
    let player = exhibit.player;
    let turn = exhibit.turn;
    if player >= session.players() || turn >= session.turns() {
        return false;
    }
    let frames = exhibit.frames.as_slice();
    match exhibit.kind {
        Kind::Illegal => ends_illegal(session, walker, player, turn, frames),
        Kind::TwoCommits | Kind::BadOpening | Kind::Collision => {
            are_pair(session, player, turn, exhibit.kind, frames)
        }
    }
}
