//! What is known of the players, and what the own frames have come to.

use definitions::{Cell, Place, Turn};

/// What is known of one player: how many of its turns are resolved, the next place of its stream, counted from 0, and how
/// many of its commitments are held. They are those to the first turns.
#[derive(Clone, Copy, Debug, PartialEq, Eq)]
pub struct View {
    pub resolved: u32,
    pub next: Place,
    pub commits: u32,
}

/// Which own frame is to be made next.
#[derive(Clone, Copy, Debug, PartialEq, Eq)]
pub enum Stage {
    /// The commitment to a turn. `last` is the own cell before the turn whose frames it waits for: the one that is as many
    /// turns earlier as players commit ahead. The commitment to a turn that has fewer before it waits for no one, and any
    /// cell will do.
    Commit { turn: Turn, last: Cell },
    /// The reveal of a turn. `at` is the own cell before that turn.
    Reveal { turn: Turn, at: Cell },
    /// None: all own frames are made.
    After,
}
