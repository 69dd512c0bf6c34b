//! What all sessions that are made have in common.

/// How many columns there are, and how many rows.
pub const SIDE: u16 = 64;

/// How many cells there are.
pub const CELLS: u16 = 4096;

/// One cell in so many is a wall, on the whole.
pub const CELLS_A_WALL: u32 = 8;

/// How many king steps a player walks in a turn at most.
pub const SPEED: u8 = 2;

/// The greatest distance at which a player strikes.
pub const REACH: u8 = 2;

/// The greatest distance from the cell struck at which a player is hit.
pub const BLAST: u8 = 1;

/// The charge with which a player begins.
pub const START_CHARGE: u8 = 2;

/// The most charge that a player gains.
pub const CAP: u8 = 6;

/// The charge that a strike takes.
pub const COST: u8 = 3;

/// How many turns are played.
pub const TURNS: u32 = 200;

/// How many players there are.
pub const PLAYERS: u8 = 8;
