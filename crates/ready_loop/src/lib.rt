//! The loop of a peer over sockets and a log.
//!
//! A loop plays for one player. It begins a log, keeps and syncs the entries that its peer goes on from, and listens. Then it settles: it reads
//! what the sockets bring, keeps each entry, chooses own moves, syncs, shuts, writes and dials, until a poll is licensed; and polls. It promises
//! that what its station tells of these calls is a history by the rules of the loop, whatever the station answers, from the beginning to the
//! end of a run (`laws`), that its own moves are the pilot's and their nonces the generator's, that it stops exactly where a poll is licensed or
//! a named end has come, and that each settling ends. It takes memory only when it is made, and touches nothing but the station, the pilot
//! and the generator that it is given.
#![tactic(auto)]

mod beginning;
mod counts;
mod dialling;
mod ending;
mod fitting;
mod handling;
mod hears;
mod keeping;
pub mod laws;
mod lines;
mod playing;
mod polling;
mod reading;
mod ready;
mod settling;
mod shutting;
mod stops;
mod waiting;
mod writing;

pub use counts::Spent;
pub use loop_ends::{Begun, Ended};
pub use polling::Round;
pub use ready::Loop;
pub use settling::Settled;
