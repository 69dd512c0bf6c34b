//! Schedules: all honest peers of a match in one object, stepped in any interleaving, with hostile players beside them.
//!
//! A [`Table`] holds the peer of each honest player of a session. A step lets one of them choose, delivers a frame that one made
//! to another, brings a frame that a hostile player made up, or stops a peer and lets it go on from the first entries of its
//! log. The crate promises that every step is the one of the definitions, and says over every list of steps: each log is honest,
//! and none got of an honest player what that one didn't make; no honest player is ever named by a finding; a move accepted for
//! one is the move that it chose; two logs that take different moves of a hostile player convict it; and no group of honest
//! peers waits for itself. All memory is taken when the table is made, and nothing else is touched.
#![tactic(auto)]

pub mod laws;
mod seats;
mod stands;
mod steps;
mod table;
mod tallies;

pub use definitions::{Entry, GotAnswer, Move, Nonce, OwnFault, Place, PlayerId, Turn, TurnFrame};
pub use peer_core::Choice;
pub use stands::Stand;
pub use steps::{Step, StepAnswer, has_players};
pub use table::Table;
pub use tallies::Tally;
