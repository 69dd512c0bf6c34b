//! For whom a player waits.
//!
//! A player goes on by itself until another one could meet it: then its next frame waits for that player's. A
//! [`WaitRule`] keeps the cell at which each player was last seen, and no session: each call is handed the one that it was
//! made for. From what is known of the players, and the stage that the own frames have come to, [`WaitRule::needs`] lists
//! those that are waited for. The crate promises that where this was taken from a log, the list is exactly the needs
//! that the definitions of the protocol give for that log. All memory is taken by `new`, from the allocator that it is
//! given, and nothing else is touched.
#![tactic(auto)]

mod meeting;
mod needs;
mod rule;
mod views;

pub use definitions::{Need, What};
pub use needs::NeedList;
pub use rule::WaitRule;
pub use views::{Stage, View};
