//! The rules of a live logger, as definitions.
//!
//! A logger listens, and takes the logs of all players of a session while they play. This crate
//! says what the history of its station shows at each moment, which item may come next, and when a
//! poll is licensed. What came of whom it tells by the streams of `log_streams`. It promises the
//! laws of its functions, which return at once. It takes no memory and touches nothing.
#![tactic(auto)]

pub mod laws;
mod phases;

pub use phases::WatchPhase;
