//! What parts of a session text say.

use crate::rules::Rules;

/// How wide and how high a grid is, each at most `WIDEST_SIDE`.
#[derive(Clone, Copy)]
pub(crate) struct Sides {
    pub width: u16,
    pub height: u16,
}

/// What the lines before those of the players say.
#[derive(Clone, Copy)]
pub(crate) struct Head {
    pub version: u8,
    pub sides: Sides,
    pub rules: Rules,
    pub turns: u32,
    pub ahead: u32,
    pub players: u8,
}
