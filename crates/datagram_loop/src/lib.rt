//! The loop of a peer over datagrams and a log.
//!
//! A loop plays for one player. It begins a log and binds its own address. Then it settles: it
//! receives the datagrams that are there, keeps and syncs the new entries, and sends each other
//! player its next own frames, each once between two polls; and polls. It promises that what its
//! post tells of these calls is a history by the rules (`post_rules`), whatever the post answers.
//! Its own moves are the pilot's and their nonces the generator's, and it stops exactly where a
//! poll is licensed or a named end has come. It counts the datagrams that it drops, by cause. It
//! takes memory only when it is made, and touches nothing but the post, the pilot and the generator
//! that it is given.
#![tactic(auto)]

mod beginning;
mod counts;
mod ending;
mod fitting;
mod hearing;
mod keeping;
pub mod laws;
mod looping;
mod playing;
mod receiving;
mod sending;
mod settling;

pub use loop_ends::{Begun, Ended};
pub use looping::PostLoop;
pub use settling::Settled;
