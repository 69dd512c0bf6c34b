//! Hits: whom a strike hits, and what a player's turn counts.

ghost use Rattle.std.specs.Prelude.{◌≡◌, ◌+◌, ◌*◌, ◌<◌, ◌≤◌, ◌^◌, length};
ghost use Rattle.playout.specs.Hits as H;

use definitions::limits::MOST_PLAYERS;
use definitions::{Cell, Move, PlayerId};
use grid_world::{Session, distance};

/// The hits that a player gave, and those that it took.
#[derive(Clone, Copy, Debug, PartialEq, Eq)]
pub struct Score {
    pub given: u32,
    pub taken: u32,
}

/// Whether the strike hits a player who stands on this cell after the turn.
fn strikes(session: &Session, strike: Option<Cell>, at: Cell) -> bool
    ensures { result ≡ H.strikes session.now strike at }
{
    match strike {
        None => false,
        Some(cell) => distance(cell, at) <= u16::from(session.rules().blast),
    }
}

/// The hits that the move gives the player of the other one.
fn hits(session: &Session, mv: &Move, other: &Move) -> u32
    ensures exact { result ≡ H.hits session.now mv.now other.now }
    ensures few { result ≤ 1 }
{
    if strikes(session, mv.strike, other.to) {
        1
    } else {
        0
    }
}

/// The score with the hits between the own move and another one. A player never hits itself.
fn with_hits(session: &Session, same: bool, own: &Move, other: &Move, score: Score) -> Score
    requires given { score.given < 2 ^ 31 }
    requires taken { score.taken < 2 ^ 31 }
    ensures exact { result ≡ H.plus score (H.between_unless same session.now own.now other.now) }
    ensures given { result.given ≤ score.given + 1 }
    ensures taken { result.taken ≤ score.taken + 1 }
{
    if same {
        return score;
    }
    Score {
        given: score.given + hits(session, own, other),
        taken: score.taken + hits(session, other, own),
    }
}

/// The score with the hits between the own move and another one, if that is there.
fn with_move(session: &Session, same: bool, own: &Move, other: &Option<Move>, score: Score) -> Score
    requires given { score.given < 2 ^ 31 }
    requires taken { score.taken < 2 ^ 31 }
    ensures exact { result ≡ H.plus score (H.between_known same session.now own.now other.now) }
    ensures given { result.given ≤ score.given + 1 }
    ensures taken { result.taken ≤ score.taken + 1 }
{
    match other {
        None => score,
        Some(other) => with_hits(session, same, own, other, score),
    }
}

/// The sum of two scores.
pub(crate) fn plus(score: Score, more: Score) -> Score
    requires given { score.given + more.given < 2 ^ 32 }
    requires taken { score.taken + more.taken < 2 ^ 32 }
    ensures { result ≡ H.plus score more }
{
    Score {
        given: score.given + more.given,
        taken: score.taken + more.taken,
    }
}

/// What the player gives and takes with its own move in a turn in which the players make these moves.
pub(crate) fn turn_score(session: &Session, me: PlayerId, own: &Move, moves: &[Move]) -> Score
    requires few { length moves.now ≤ MOST_PLAYERS }
    ensures exact { result ≡ H.score_among session.now me own.now 0 moves.now }
    ensures given { result.given ≤ MOST_PLAYERS }
    ensures taken { result.taken ≤ MOST_PLAYERS }
{
    let at = usize::from(me);
    let mut score = Score { given: 0, taken: 0 };
    for (player, other) in moves.iter().enumerate() {
        score = with_hits(session, player == at, own, other, score);
    }
    score
}

/// What the player gives and takes with its own move against the moves of others that are there.
pub(crate) fn own_score(
    session: &Session,
    me: PlayerId,
    own: &Move,
    others: &[Option<Move>],
) -> Score
    requires few { length others.now ≤ MOST_PLAYERS }
    ensures exact { result ≡ H.own_score session.now me own.now others.now }
    ensures given { result.given ≤ MOST_PLAYERS }
    ensures taken { result.taken ≤ MOST_PLAYERS }
{
    let at = usize::from(me);
    let mut score = Score { given: 0, taken: 0 };
    for (player, other) in others.iter().enumerate() {
        score = with_move(session, player == at, own, other, score);
    }
    score
}
