//! The grid world and the sessions that are played on it.
//!
//! A session is a text that every player has: the grid with its walls, the rules, the number of turns, and where each
//! player starts. In version 1 all players commit one turn ahead, and walk and strike as the rules say. A text of version 2
//! says how many turns ahead, may give a player a speed and a reach of its own, and has larger limits. The crate reads both
//! and gives a [`Session`], which contracts see as a `Game` of the crate `definitions`. It promises that a text reads as
//! exactly one session, that every text of a session is read unless memory runs out, and that a text which is none is
//! refused with its first faulty line and that line's first broken rule. [`upgraded`] makes a session of version 1 one of
//! version 2. A session also tells the places of a player's frames in its stream, and which frame stands at a place.
//! A [`Stream`] says how much of a player's stream is known, and which frame stands next in it.
//! The crate takes memory from the allocator that it is given, and touches nothing else.
#![tactic(auto)]

mod fault;
mod grid;
mod head;
mod parts;
mod places;
mod printing;
mod reading;
mod rules;
mod session;
mod streams;
mod upgrade;

pub use definitions::{Cell, FramePlace, Place, PlayerId, SessionRule, Slot, Turn};
pub use fault::SessionFault;
pub use grid::{Grid, distance};
pub use printing::print_session;
pub use reading::read_session;
pub use rules::Rules;
pub use session::Session;
pub use streams::Stream;
pub use upgrade::upgraded;
