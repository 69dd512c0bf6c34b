//! The grid world: cells, moves, tracks, and why a move is refused.

/// A player's number, counted from 0 in the order of the session text.
pub type PlayerId = u8;

/// A turn's number, counted from 0.
pub type Turn = u32;

/// A cell of the grid: its column and its row, each counted from 0.
#[derive(Clone, Copy, Debug, PartialEq, Eq, Hash)]
pub struct Cell {
    pub x: u16,
    pub y: u16,
}

/// Where a player begins, and how far it walks and strikes.
#[derive(Clone, Copy, Debug, PartialEq, Eq)]
pub struct Seat {
    /// The cell at which the player stands before the first turn.
    pub start: Cell,
    /// The most king steps that the player walks in a turn.
    pub speed: u8,
    /// The greatest square distance from the player's target to the cell that it strikes.
    pub reach: u8,
}

/// What a player decides for a turn: the cell that it goes to, and the cell that it strikes from there, if any.
#[derive(Clone, Copy, Debug, PartialEq, Eq, Hash)]
pub struct Move {
    pub to: Cell,
    pub strike: Option<Cell>,
}

/// Where a player stands between two turns, and the charge that it has for strikes.
#[derive(Clone, Copy, Debug, PartialEq, Eq)]
pub struct Track {
    pub at: Cell,
    pub charge: u8,
}

/// Why a move is not legal, in the order in which the causes are tried.
#[derive(Clone, Copy, Debug, PartialEq, Eq)]
pub enum MoveFault {
    /// The target is outside the grid.
    Outside,
    /// The target is a wall.
    Wall,
    /// No walk of as many steps as the player's speed leads to the target.
    TooFar,
    /// The cell struck is outside the grid.
    StrikeOutside,
    /// The cell struck is farther from the target than the player's reach.
    StrikeFar,
    /// The charge is below the cost of a strike.
    NoCharge,
}
