//! Who chooses a player's moves.
//!
//! A [`Pilot`] is asked for a move by where its player stands and by the turn. It may tell a plan, and then its choices are the plan's.
//! A [`ScriptPilot`] is read from a text of moves, one for each turn, tells them as its plan, and stays past the last of them; the crate
//! promises that a text is read exactly where it is such a text, and otherwise refused with its first line at fault. A [`BotPilot`]
//! draws its choices from a generator of its own: they are exactly those that `specs/Choices.antt` draws, and legal from every open
//! cell. The generator is a Pcg32 that is seeded by a number, and what is drawn of it is in `specs/Draws.antt`. The laws of
//! `laws` are that moves are read back from their text, which bytes decide what a text says, and what it means that a line
//! is the first at fault. The crate takes memory from the allocator that it is given, a bot takes none, and it touches
//! nothing else.
#![tactic(auto)]

mod bot;
mod draws;
pub mod laws;
mod limits;
mod moves;
mod pilot;
mod script;

pub use bot::BotPilot;
pub use definitions::{Move, Track, Turn};
pub use draws::{draw, generator_of};
pub use limits::MOVES_FRONT;
pub use moves::print_moves;
pub use pilot::Pilot;
pub use script::ScriptPilot;
pub use text_fields::TextFault;
