//! A player of whom all logs show the same: each of its turns is judged once for all logs.

ghost use Rattle.std.specs.Prelude.{◌≡◌, ◌<◌, IsTrue};
ghost use Rattle.definitions.specs.World.{is_open, players_of};
ghost use Rattle.frame_index.specs.Plain as P;

use crate::frames::FrameIndex;
use crate::kept::KeptFrame;
use definitions::{Move, PlayerId, Track, TurnFrame};
use grid_world::Session;
use move_rules::{Walker, start_track};

/// Whether at most one commitment and one reveal are kept of a turn, and they have one digest.
pub(crate) fn is_plain(kept: &[KeptFrame]) -> bool
    ensures { IsTrue result → P.IsPlain kept.now }
{
    match kept {
        [] => true,
        [_] => true,
        [one, other] => {
            one.frame.is_commit() != other.frame.is_commit() && one.digest == other.digest
        }
        _ => false,
    }
}

/// The move that the first reveal shows.
pub(crate) fn move_in(kept: &[KeptFrame]) -> Option<Move>
    ensures { result ≡ P.move_in kept.now }
{
    match kept {
        [] => None,
        [one, rest @ ..] => match one.frame {
            TurnFrame::Reveal { mv, .. } => Some(mv),
            TurnFrame::Commit { .. } => move_in(rest),
        },
    }
}

/// The track after the turn of which these frames are kept; none where the reveal that is kept isn't legal.
pub(crate) fn track_behind(
    session: &Session,
    walker: &mut Walker,
    player: PlayerId,
    track: &Track,
    kept: &[KeptFrame],
) -> Option<Track>
    requires player { player < players_of session.now }
    requires track { IsTrue (is_open session.now.grid track.now.at) }
    ensures { P.LeadsTo session.now player track.now (P.move_in kept.now) result }
{
    match move_in(kept) {
        None => Some(*track),
        Some(mv) => walker.legal(session, player, track, &mv).ok(),
    }
}

/// Whether of each of the player's turns at most one commitment and one reveal are kept, which open each other and are legal one behind
/// the other: then no log shows anything against the player.
pub(crate) fn is_plain_player(
    index: &FrameIndex,
    session: &Session,
    walker: &mut Walker,
    player: PlayerId,
) -> bool
    requires { player < players_of session.now }
    ensures { IsTrue result → P.IsClear session.now index.now player }
{
    session.facts();
    let mut track = start_track(session, player);
    for turn in 0..session.turns() {
        let kept = index.kept(player, turn);
        if !is_plain(kept) {
            return false;
        }
        match track_behind(session, walker, player, &track, kept) {
            None => return false,
            Some(next) => track = next,
        }
    }
    true
}
