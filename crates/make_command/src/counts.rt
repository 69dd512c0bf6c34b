//! What is counted of a match.

/// How often the bots chose, a frame was delivered that a player lacked, one was lost, and one was delivered that a player may have had.
#[derive(Clone, Copy, Debug, PartialEq, Eq)]
pub struct Counts {
    pub chosen: u32,
    pub delivered: u32,
    pub lost: u32,
    pub repeated: u32,
}
