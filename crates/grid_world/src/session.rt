//! What is played: a grid, the rules, the turns, and who starts where.

ghost use Rattle.std.specs.Prelude.{◌≡◌, ◌*◌, ◌<◌, ◌≤◌, IsTrue, IfOk};
ghost use Rattle.definitions.specs.World.{is_open, seat_of, players_of};
ghost use Rattle.grid_world.specs.Sessions.{IsSession, game_of, rules_of};

use crate::grid::Grid;
use crate::rules::Rules;
use definitions::limits::{
    FARTHEST_REACH, FEWEST_PLAYERS, LAST_VERSION, MOST_AHEAD, MOST_PLAYERS, MOST_SPEED, MOST_TURNS,
    MOST_TURNS_OF_ALL,
};
use definitions::{Cell, PlayerId, Seat};
use std::alloc::{AllocError, Global};
use std::marker::Model;

/// A session, read from its text.
#[derive(Drop)]
pub struct Session {
    version: u8,
    id: [u8; 32],
    grid: Grid,
    rules: Rules,
    turns: u32,
    ahead: u32,
    // in order of player
    seats: Vec<Seat>,
}

impl Model for Session {
    ghost use Rattle.definitions.specs.World.{Game};
    ghost use Rattle.grid_world.specs.Sessions.{IsSession, game_of, rules_of};

    ghost Value = { Game };

    ghost view = { λ s. game_of s.version s.id s.grid (rules_of s.rules) s.turns s.ahead s.seats.items };

    ghost invariant = { λ s. IsSession (game_of s.version s.id s.grid (rules_of s.rules) s.turns s.ahead s.seats.items) };
}

impl Session {
    /// The session of these parts.
    pub(crate) fn new(
        version: u8,
        id: [u8; 32],
        grid: Grid,
        rules: Rules,
        turns: u32,
        ahead: u32,
        seats: Vec<Seat>,
    ) -> Session
        requires { IsSession (game_of version id grid (rules_of rules) turns ahead seats.items) }
        ensures { result ≡ game_of version id grid (rules_of rules) turns ahead seats.items }
    {
        Session {
            version,
            id,
            grid,
            rules,
            turns,
            ahead,
            seats,
        }
    }

    /// Every session has the form that its text asks for: nothing but that fact.
    pub fn facts(&self)
        ensures { IsSession self.now }
    {
        let _ = &self.turns;
    }

    /// The version of the session's text, from 1 to `LAST_VERSION`.
    pub fn version(&self) -> u8
        ensures value { result ≡ self.now.version }
        ensures least { 1 ≤ result }
        ensures most { result ≤ LAST_VERSION }
    {
        self.version
    }

    /// The SHA-256 digest of the session's text.
    pub fn id(&self) -> &[u8; 32]
        ensures { result.now ≡ self.now.id }
    {
        &self.id
    }

    /// The grid that is played on.
    pub fn grid(&self) -> &Grid
        ensures value { result.now ≡ self.now.grid }
        ensures session { IsSession self.now }
    {
        &self.grid
    }

    /// The numbers that the session goes by. How far a player walks and strikes, `speed` and `reach` tell.
    pub fn rules(&self) -> Rules
        ensures value { rules_of result ≡ self.now.rules }
        ensures session { IsSession self.now }
    {
        self.rules
    }

    /// How many turns are played, from 1 to `MOST_TURNS`.
    pub fn turns(&self) -> u32
        ensures value { result ≡ self.now.turns }
        ensures least { 1 ≤ result }
        ensures most { result ≤ MOST_TURNS }
    {
        self.turns
    }

    /// How many turns ahead of its reveals a player commits, from 1 to `MOST_AHEAD`. In version 1 it is one.
    pub fn ahead(&self) -> u32
        ensures value { result ≡ self.now.ahead }
        ensures least { 1 ≤ result }
        ensures most { result ≤ MOST_AHEAD }
    {
        self.ahead
    }

    /// How many players there are, from `FEWEST_PLAYERS` to `MOST_PLAYERS`. Their numbers are those below.
    pub fn players(&self) -> u8
        ensures value { result ≡ players_of self.now }
        ensures least { FEWEST_PLAYERS ≤ result }
        ensures most { result ≤ MOST_PLAYERS }
        ensures turns { result * self.now.turns ≤ MOST_TURNS_OF_ALL }
    {
        self.seats.len() as u8
    }

    /// The seats of the players in their order.
    pub(crate) fn seats(&self) -> &[Seat]
        ensures { result.now ≡ self.now.seats }
    {
        &self.seats
    }

    /// Where the player begins, and how far it walks and strikes.
    pub(crate) fn seat(&self, player: PlayerId) -> Seat
        requires { player < players_of self.now }
        ensures { result ≡ seat_of self.now player }
    {
        self.seats[usize::from(player)]
    }

    /// The cell that the player starts at.
    pub fn start(&self, player: PlayerId) -> Cell
        requires { player < players_of self.now }
        ensures value { result ≡ (seat_of self.now player).start }
        ensures open_cell { IsTrue (is_open self.now.grid result) }
    {
        self.facts();
        self.seat(player).start
    }

    /// The most king steps that the player walks in a turn, from 1 to `MOST_SPEED`.
    pub fn speed(&self, player: PlayerId) -> u8
        requires { player < players_of self.now }
        ensures value { result ≡ (seat_of self.now player).speed }
        ensures least { 1 ≤ result }
        ensures most { result ≤ MOST_SPEED }
    {
        self.facts();
        self.seat(player).speed
    }

    /// The greatest square distance from the player's target to the cell that it strikes, at most `FARTHEST_REACH`.
    pub fn reach(&self, player: PlayerId) -> u8
        requires { player < players_of self.now }
        ensures value { result ≡ (seat_of self.now player).reach }
        ensures most { result ≤ FARTHEST_REACH }
    {
        self.facts();
        self.seat(player).reach
    }

    /// The same session once more.
    pub fn copy(&self, alloc: Global) -> Result<Session, AllocError>
        ensures { IfOk result (λ s. s ≡ self.now) }
    {
        let grid = self.grid.copy(alloc)?;
        let seats = Vec::from_slice(alloc, &self.seats)?;
        Ok(Session {
            version: self.version,
            id: self.id,
            grid,
            rules: self.rules,
            turns: self.turns,
            ahead: self.ahead,
            seats,
        })
    }
}
