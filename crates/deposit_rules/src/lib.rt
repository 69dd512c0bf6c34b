//! The rules of a player that deposits its log with a live logger, as definitions, and the one
//! socket that it has for that.
//!
//! A depositor dials the logger, shows its pass, and gives its log from the byte on that the
//! logger wants. This crate says what the history of its station shows at each moment, which item
//! may come next for a log of given bytes, and when a poll is licensed. It promises the laws of
//! its functions, which return at once, and of each change of the socket that it is the one that
//! the rules name. `live_deposit` makes the calls. It takes no memory and touches nothing.
#![tactic(auto)]

pub mod laws;
mod line;
mod phases;

pub use line::{DepositLine, MOST_ANSWER};
pub use phases::DepositPhase;
