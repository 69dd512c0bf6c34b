//! A pilot that draws its choices.

ghost use Rattle.std.specs.Prelude.{◌≡◌, ◌<◌, ◌≤◌, ◌+◌, ◌*◌, ℕ, None, IfSome, IsTrue};
ghost use Rattle.definitions.specs.World.{is_open, is_inside, players_of};
ghost use Rattle.definitions.specs.Moves.{IsLegal};
ghost use Rattle.definitions.specs.declared.limits.TheConstants.{FARTHEST_REACH, WIDEST_SIDE};
ghost use Rattle.grid_world.specs.Grids.{IsGrid};
ghost use Rattle.pilots.specs.Choices as C;
ghost use Rattle.pilots.specs.Choices.{aimed, choice_of, least_reach, strike_of, struck_cell, target_of};
ghost use Rattle.pilots.specs.Draws as D;

use crate::draws::{draw, generator_of};
use crate::pilot::Pilot;
use definitions::{Cell, Move, Track, Turn};
use grid_world::{Grid, Session};
use rand_pcg::Pcg32;
use std::marker::Model;

/// Draws its choices from a generator of its own: where to go by one step, and whether to strike, and what.
#[derive(Drop)]
pub struct BotPilot<'a> {
    session: &'a Session,
    chance: Pcg32,
    // the least reach of all players
    reach: u8,
}

impl<'a> Model for BotPilot<'a> {
    ghost use Rattle.std.specs.Prelude.{◌≡◌};
    ghost use Rattle.pilots.specs.Choices.{Bot, least_reach};

    ghost Value = { Bot };

    ghost view = { λ b. record { game = b.session.now; generator = b.chance } };

    ghost invariant = { λ b. b.reach ≡ least_reach b.session.now };
}

/// The least reach of all players.
#[tactic(auto, unfolding(crate::specs::Choices::least_reach))]
fn reach_of_all(session: &Session) -> u8
    ensures { result ≡ least_reach session.now }
{
    let players = session.players();
    let mut least = session.reach(0);
    for player in 0..players {
        least = least.min(session.reach(player));
    }
    least
}

/// Where a bot goes that stands on this cell, by the number from 0 to 8 that it drew.
#[tactic(auto, unfolding(crate::specs::Choices::target_of))]
fn target(grid: &Grid, at: Cell, drawn: u32) -> Cell
    requires { drawn < 9 }
    ensures { result ≡ target_of grid.now at drawn }
{
    let x = u32::from(at.x) + drawn % 3;
    let y = u32::from(at.y) + drawn / 3;
    if x == 0 || y == 0 || x > grid.width().into() || y > grid.height().into() {
        return at;
    }
    let wished = Cell {
        x: (x - 1) as u16,
        y: (y - 1) as u16,
    };
    if grid.open(wished) { wished } else { at }
}

/// The number moved by what was drawn less the reach, and then the nearest to it of those below the side.
fn aim(side: u16, reach: u8, from: u16, drawn: u32) -> u16
    requires side { 0 < side }
    requires drawn { drawn ≤ 2 * reach }
    ensures { result ≡ aimed side reach from drawn }
{
    let moved = (u32::from(from) + drawn).saturating_sub(u32::from(reach));
    moved.min(u32::from(side) - 1) as u16
}

impl<'a> BotPilot<'a> {
    /// The bot of this number, which plays the session. Two bots of one number make the same choices from the same tracks.
    pub fn new(number: u64, session: &'a Session) -> BotPilot<'a>
        ensures { result ≡ record { game = session.now; generator = D.generator_of number } }
    {
        BotPilot {
            session,
            chance: generator_of(number),
            reach: reach_of_all(session),
        }
    }

    /// The cell that is struck from this target.
    #[tactic(auto, unfolding(crate::specs::Choices::struck_cell))]
    fn struck(&self, to: Cell, across: u32, down: u32) -> Cell
        requires across { across ≤ 2 * least_reach self.now.game }
        requires down { down ≤ 2 * least_reach self.now.game }
        ensures { result ≡ struck_cell self.now.game to across down }
    {
        let grid = self.session.grid();
        Cell {
            x: aim(grid.width(), self.reach, to.x, across),
            y: aim(grid.height(), self.reach, to.y, down),
        }
    }

    /// What is struck from this target, if anything.
    #[tactic(auto, unfolding(crate::specs::Choices::strike_of))]
    fn strike(&mut self, charge: u8, to: Cell) -> Option<Cell>
        ensures value { result ≡ (strike_of self.old.game charge to self.old.generator).0 }
        ensures after { self.new ≡ record self.old { generator = (strike_of self.old.game charge to self.old.generator).1 } }
    {
        if charge < self.session.rules().cost || draw(&mut self.chance, 2) != 0 {
            return None;
        }
        let drift = 2 * u32::from(self.reach) + 1;
        let across = draw(&mut self.chance, drift);
        let down = draw(&mut self.chance, drift);
        Some(self.struck(to, across, down))
    }
}

impl<'a> Pilot for BotPilot<'a> {
    ghost plan = { λ _. None };

    /// A step to a neighbour or none, and perhaps a strike, as they are drawn. From a cell that is inside and no wall the move is legal,
    /// whichever player makes it.
    #[tactic(auto, unfolding(crate::specs::Choices::choice_of))]
    fn choose(&mut self, track: &Track, turn: Turn) -> Move
        // The move is the one that its draws give, and the session stays.
        ensures chosen { result ≡ (choice_of self.old.game track.now self.old.generator).0 }
        ensures after { self.new ≡ record self.old { generator = (choice_of self.old.game track.now self.old.generator).1 } }
        // It is legal from every open cell.
        ensures legal { (q : ℕ) → q < players_of self.old.game → IsTrue (is_open self.old.game.grid track.now.at) → IsLegal self.old.game q track.now result }
    {
        self.session.facts();
        let drawn = draw(&mut self.chance, 9);
        let to = target(self.session.grid(), track.at, drawn);
        let strike = self.strike(track.charge, to);
        Move { to, strike }
    }
}
