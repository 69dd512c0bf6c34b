//! A peer: the log of one player, and what the protocol lets it do next.
//!
//! The crate promises that a peer's log is always honest: each choice, and each frame that it makes by itself, was allowed
//! by the protocol after the entries before it, and it makes every frame as soon as that is allowed. It tells whom it
//! waits for, and what it gave and took in the turns of which no one can change that any more. A peer goes on from the
//! entries of a log exactly where they are honest. It takes all its memory when it is made, and touches nothing outside.
#![tactic(auto)]

mod answers;
mod choosing;
mod cutting;
mod following;
mod frames;
mod others;
mod peer;
mod resuming;
mod room;
mod sending;
mod settling;
mod stages;
mod stepping;
mod views;

pub use answers::is_logged;
pub use cutting::Cut;
pub use definitions::{Entry, Finding, GotAnswer, Need, OwnFault, Place, Progress, What};
pub use peer::Peer;
pub use playout::Score;
pub use resuming::ResumeFault;
pub use views::{Choice, PlayerView};
pub use wait_rule::NeedList;
