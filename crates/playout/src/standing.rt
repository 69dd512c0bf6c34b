//! Where a player stands, and what it has scored.

ghost use Rattle.std.specs.Prelude.{◌≡◌, ◌+◌, ◌*◌, ◌<◌, ◌≤◌, ◌^◌, ℕ, IfSome, IfOk, length, map, slice_set};
ghost use Rattle.definitions.specs.Lists.{item_or};
ghost use Rattle.definitions.specs.Moves.{IsLegal};
ghost use Rattle.definitions.specs.World.{players_of};
ghost use Rattle.playout.specs.Hits.{move_of};
ghost use Rattle.playout.specs.Lockstep as L;
ghost use Rattle.playout.specs.Playing.{no_standing, seated, all_after, scored};
ghost use Rattle.playout.specs.Bounds.{IsBelow, AreBelow};

use crate::hits::{Score, plus, turn_score};
use definitions::limits::MOST_PLAYERS;
use definitions::{Move, PlayerId, Track};
use grid_world::Session;
use move_rules::{next_track, start_track};
use std::alloc::{AllocError, Global};

/// A player's track and score.
#[derive(Clone, Copy, Debug, PartialEq, Eq)]
pub(crate) struct Standing {
    pub track: Track,
    pub score: Score,
}

/// Each player at its start, without hits.
pub(crate) fn seats(alloc: Global, session: &Session) -> Result<Vec<Standing>, AllocError>
    ensures { IfOk result (λ standings. standings.items ≡ map (seated session.now) session.now.seats) }
{
    let mut standings = Vec::with_capacity(alloc, usize::from(session.players()))?;
    for player in 0..session.players() {
        standings.push(Standing {
            track: start_track(session, player),
            score: Score { given: 0, taken: 0 },
        })?;
    }
    Ok(standings)
}

/// Puts each player back to its start, without hits.
pub(crate) fn reseat(session: &Session, standings: &mut [Standing])
    requires { length standings.old ≡ players_of session.now }
    ensures { standings.new ≡ map (seated session.now) session.now.seats }
{
    for player in 0..session.players() {
        standings[usize::from(player)] = Standing {
            track: start_track(session, player),
            score: Score { given: 0, taken: 0 },
        };
    }
}

/// The player's standing after a turn in which the players make these moves.
fn standing_after(
    session: &Session,
    moves: &[Move],
    player: PlayerId,
    standing: &Standing,
) -> Standing
    requires player { player < length moves.now }
    requires few { length moves.now ≤ MOST_PLAYERS }
    requires legal { IsLegal session.now player standing.now.track (move_of moves.now player) }
    requires below { IsBelow (2 ^ 31) standing.now }
    ensures { result ≡ L.standing_after session.now moves.now player standing.now }
{
    let mv = moves[usize::from(player)];
    Standing {
        track: next_track(session, &standing.track, &mv),
        score: plus(standing.score, turn_score(session, player, &mv, moves)),
    }
}

/// Plays a turn in which the players make these moves.
pub(crate) fn play(session: &Session, moves: &[Move], standings: &mut [Standing])
    requires one_each { length standings.old ≡ length moves.now }
    requires few { length moves.now ≤ MOST_PLAYERS }
    requires legal { (q : ℕ) → q < length moves.now → IsLegal session.now q (item_or standings.old q no_standing).track (move_of moves.now q) }
    requires below { AreBelow (2 ^ 31) standings.old }
    ensures { standings.new ≡ all_after session.now moves.now 0 standings.old }
{
    for player in 0..standings.len() as u8 {
        let at = usize::from(player);
        let before = standings[at];
        standings[at] = standing_after(session, moves, player, &before);
    }
}

/// Counts these hits too for the player at this place.
pub(crate) fn count(standings: &mut [Standing], at: usize, score: Score)
    requires at { at < length standings.old }
    requires given { score.given ≤ MOST_PLAYERS }
    requires taken { score.taken ≤ MOST_PLAYERS }
    requires below { AreBelow (2 ^ 31) standings.old }
    ensures { standings.new ≡ slice_set standings.old at (scored (item_or standings.old at no_standing) score) }
{
    let before = standings[at];
    standings[at] = Standing {
        track: before.track,
        score: plus(before.score, score),
    };
}
