//! Why a session text is refused.

/// Which rule a line of a session text breaks, in the order in which the rules are tried at a line.
#[derive(Clone, Copy, Debug, PartialEq, Eq)]
pub enum SessionRule {
    /// The line does not have the form that its place asks for, is missing, or stands after `end`.
    S1,
    /// The version is neither 1 nor 2.
    S2,
    /// A side of the grid is not in 1..=1024 cells, or in version 1 not in 1..=256.
    S3,
    /// The speed is not in 1..=8 steps, the reach not in 0..=8 cells, or the blast not in 0..=2 cells.
    S4,
    /// A charge is above 255, or the start charge is above the cap.
    S5,
    /// The number of turns is not in 1..=8192, or in version 1 not in 1..=4096.
    S6,
    /// The number of players is not in 2..=64, or in version 1 not in 2..=16.
    S7,
    /// A player's number is not the next one, or a cell is outside the grid.
    S8,
    /// A wall does not come after the wall before it in row order, or stands where a player starts.
    S9,
    /// The number of turns that players commit ahead is not in 1..=8.
    S10,
    /// A player's own speed is not in 1..=8 steps, its own reach is not in 0..=8 cells, or both are those of all players.
    S11,
    /// The number of players times the number of turns is above 393,216.
    S12,
}
