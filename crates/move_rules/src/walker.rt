//! Which moves are legal.

ghost use Rattle.std.specs.Prelude.{◌≡◌, ◌<◌, ◌≤◌, IsTrue, IsOk, IfNone, IfSome};
ghost use Rattle.definitions.specs.World.{players_of, is_open};
ghost use Rattle.definitions.specs.Walk.{in_reach};
ghost use Rattle.definitions.specs.Moves as M;
ghost use Rattle.move_rules.specs.Verdicts.{verdict};

use crate::tracks::next_track;
use crate::window::leads;
use definitions::{Cell, Move, MoveFault, PlayerId, Track};
use grid_world::{Grid, Session, distance};
use std::alloc::{AllocError, Global};

/// Judges moves. It keeps nothing from one move to the next, so that one walker serves every player and session.
#[derive(Drop)]
pub struct Walker {}

/// Whether a player that stands at `from` reaches `to` within a turn.
fn is_near(session: &Session, player: PlayerId, from: Cell, to: Cell) -> bool
    requires player { player < players_of session.now }
    requires from { IsTrue (is_open session.now.grid from) }
    ensures { result ≡ in_reach session.now player from to }
{
    leads(session.grid(), from, to, u16::from(session.speed(player)))
}

/// Why the strike isn't allowed from this track to this target, by the first cause.
fn strike_fault(
    session: &Session,
    player: PlayerId,
    track: &Track,
    to: Cell,
    strike: Cell,
) -> Option<MoveFault>
    requires { player < players_of session.now }
    ensures { result ≡ M.strike_fault session.now player track.now to (Some strike) }
{
    let rules = session.rules();
    if !session.grid().inside(strike) {
        Some(MoveFault::StrikeOutside)
    } else if distance(strike, to) > u16::from(session.reach(player)) {
        Some(MoveFault::StrikeFar)
    } else if track.charge < rules.cost {
        Some(MoveFault::NoCharge)
    } else {
        None
    }
}

/// Why the move isn't legal from this track, by the first cause.
fn move_fault(session: &Session, player: PlayerId, track: &Track, mv: &Move) -> Option<MoveFault>
    requires player { player < players_of session.now }
    requires track { IsTrue (is_open session.now.grid track.now.at) }
    ensures fault { result ≡ M.move_fault session.now player track.now mv.now }
    ensures charge { IfNone result (IfSome mv.now.strike (λ c. session.now.rules.cost ≤ track.now.charge)) }
{
    if !session.grid().inside(mv.to) {
        return Some(MoveFault::Outside);
    }
    if session.grid().wall(mv.to) {
        return Some(MoveFault::Wall);
    }
    if !is_near(session, player, track.at, mv.to) {
        return Some(MoveFault::TooFar);
    }
    match mv.strike {
        None => None,
        Some(strike) => strike_fault(session, player, track, mv.to, strike),
    }
}

impl Walker {
    /// A walker for this grid. It takes no memory, and is always made.
    pub fn new(_alloc: Global, _grid: &Grid) -> Result<Walker, AllocError>
        ensures { IsOk result }
    {
        Ok(Walker {})
    }

    /// The player's track after the move, or the first of the faults that the move has from this track.
    ///
    /// The player walks over open cells, as many king steps as its speed at most, and may cut corners between walls. A
    /// strike may be aimed at a wall. The call takes no memory, and time by the square of the speed whatever the grid.
    pub fn legal(
        &mut self,
        session: &Session,
        player: PlayerId,
        track: &Track,
        mv: &Move,
    ) -> Result<Track, MoveFault>
        requires player { player < players_of session.now }
        requires track { IsTrue (is_open session.now.grid track.now.at) }
        ensures { result ≡ verdict session.now player track.now mv.now }
    {
        match move_fault(session, player, track, mv) {
            Some(fault) => Err(fault),
            None => Ok(next_track(session, track, mv)),
        }
    }
}
