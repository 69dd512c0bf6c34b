//! The play of the moves on which logs agree.

ghost use Rattle.std.specs.Prelude.{◌≡◌, ◌<◌, ◌≤◌, ◌+◌, ℕ, List, length, map, slice_get, IsTrue, IfOk, OnOk};
ghost use Rattle.definitions.specs.declared.world.Move.{Move};
ghost use Rattle.definitions.specs.Lists.{item_or};
ghost use Rattle.definitions.specs.World.{players_of};
ghost use Rattle.playout.specs.Lockstep.{AreLegalMoves, lockstep, turn_moves};
ghost use Rattle.playout.specs.Playing.{AreLegalNow, IsLockstep};
ghost use Rattle.auditor.specs.Agreed as A;
ghost use Rattle.auditor.specs.Played as P;

use definitions::{Move, PlayerId, Track, Turn};
use grid_world::Session;
use move_rules::Walker;
use playout::laws::players_follow_their_moves;
use playout::{Playout, Score};
use std::alloc::{AllocError, Global};

/// Where a player stands at the end, with which charge, and the hits that it gave and took.
#[derive(Clone, Copy, Debug, PartialEq, Eq)]
pub struct WorldLine {
    pub track: Track,
    pub score: Score,
}

/// Whether each player has moves of all turns.
fn are_whole(session: &Session, moves: &[Vec<Move>]) -> bool
    ensures { result ≡ A.are_whole session.now (map (λ own. own.items) moves.now) }
{
    let turns = session.turns() as usize;
    for own in moves {
        if own.len() != turns {
            return false;
        }
    }
    true
}

/// The move that stands at the turn; none past the last one.
fn move_at(own: &Vec<Move>, turn: Turn) -> Option<Move>
    ensures { result ≡ slice_get own.now.items turn }
{
    own.get(turn as usize).copied()
}

/// Puts the turn's move of each player in order of player, as far as each has one.
fn put_turn(moves: &[Vec<Move>], turn: Turn, out: &mut Vec<Move>) -> Result<(), AllocError>
    ensures { OnOk result (out.new.items ≡ P.moves_at (map (λ own. own.items) moves.now) turn) }
{
    out.clear();
    for own in moves {
        if let Some(mv) = move_at(own, turn) {
            out.push(mv)?;
        }
    }
    Ok(())
}

/// Whether there is one move for each player, and each is legal from where its player stands.
fn are_legal(session: &Session, walker: &mut Walker, playout: &Playout, moves: &[Move]) -> bool
    requires players { length playout.now.standings ≡ players_of session.now }
    requires opens { P.AreOpen session.now playout.now }
    ensures yes { IsTrue result → AreLegalNow session.now playout.now moves.now }
    ensures no { AreLegalNow session.now playout.now moves.now → IsTrue result }
{
    if moves.len() != usize::from(session.players()) {
        return false;
    }
    for player in 0..session.players() {
        let track = playout.world_at(player);
        let mv = moves[usize::from(player)];
        if walker.legal(session, player, &track, &mv).is_err() {
            return false;
        }
    }
    true
}

/// Plays the turns of all players by these moves, up to the first turn that can't be played.
fn play(
    alloc: Global,
    session: &Session,
    walker: &mut Walker,
    moves: &[Vec<Move>],
) -> Result<Playout, AllocError>
    ensures players { IfOk result (λ p. length p.standings ≡ players_of session.now) }
    ensures lockstep { IfOk result (λ p. AreLegalMoves session.now (map (λ own. own.items) moves.now) session.now.turns → (p.turns ≡ session.now.turns) × IsLockstep session.now (map (λ own. own.items) moves.now) p) }
{
    players_follow_their_moves();
    session.facts();
    let mut playout = Playout::new(alloc, session)?;
    let mut now = Vec::with_capacity(alloc, usize::from(session.players()))?;
    for turn in 0..session.turns() {
        put_turn(moves, turn, &mut now)?;
        if !are_legal(session, walker, &playout, &now) {
            return Ok(playout);
        }
        playout.turn(session, &now);
    }
    Ok(playout)
}

/// Each player's line after the turns that were played.
fn lines_of(
    alloc: Global,
    session: &Session,
    playout: &Playout,
) -> Result<Vec<WorldLine>, AllocError>
    requires { length playout.now.standings ≡ players_of session.now }
    ensures { IfOk result (λ lines. lines.items ≡ map A.line_of playout.now.standings) }
{
    let mut lines = Vec::with_capacity(alloc, usize::from(session.players()))?;
    for player in 0..session.players() {
        lines.push(WorldLine {
            track: playout.world_at(player),
            score: playout.score(player),
        })?;
    }
    Ok(lines)
}

/// Each player's line after the play of these moves over all turns; no lines where they aren't moves of all turns.
pub(crate) fn world(
    alloc: Global,
    session: &Session,
    walker: &mut Walker,
    moves: &[Vec<Move>],
) -> Result<Vec<WorldLine>, AllocError>
    ensures few { IfOk result (λ lines. length lines.items ≤ players_of session.now) }
    ensures lines { IfOk result (λ lines. P.AreLegalIfWhole session.now (map (λ own. own.items) moves.now) → (q : ℕ) → q < players_of session.now → P.line_at lines.items q ≡ A.world_by session.now (map (λ own. own.items) moves.now) q) }
{
    if !are_whole(session, moves) {
        return Ok(Vec::new(alloc));
    }
    let playout = play(alloc, session, walker, moves)?;
    let lines = lines_of(alloc, session, &playout)?;
    Ok(lines)
}
