//! The numbers that the whole session goes by.

/// What the lines `rules` and `charge` of a session text say.
#[derive(Clone, Copy, Debug, PartialEq, Eq)]
pub struct Rules {
    /// The most king steps that a player walks in a turn, from 1 to `MOST_SPEED`, unless it has a speed of its own.
    pub speed: u8,
    /// The greatest square distance from a player's target to the cell that it strikes, at most `FARTHEST_REACH`, unless
    /// it has a reach of its own.
    pub reach: u8,
    /// The greatest square distance from the cell struck at which a player is hit, at most
    /// `WIDEST_BLAST`.
    pub blast: u8,
    /// The charge that each player begins with, at most `cap`.
    pub start_charge: u8,
    /// The charge that a player never gains beyond.
    pub cap: u8,
    /// The charge that a strike takes. Above `cap` it is never there, and nobody strikes.
    pub cost: u8,
}
