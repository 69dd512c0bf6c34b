//! A peer that goes on from a log: what its bytes say, and a peer that has logged just that.
//!
//! A log that was cut short or changed is used as far as it is whole: its bytes from the first fault on are dropped, and
//! the entries before it are replayed. The crate promises that a peer is had exactly where the log isn't too long and these
//! entries are its player's own and honest, unless memory runs out, that the peer's log is then these entries and nothing
//! else, and that a log which is refused is answered with the byte from which on it can't be used. It takes memory from the
//! allocator that it is given. [`begin`] and [`open_peer`] read the log, and the session before it, from files of a shelf,
//! and answer what is wrong by the status with which a command ends; all else touches nothing outside.
#![tactic(auto)]

mod files;
mod places;
mod reading;
mod resuming;
mod whole;

pub use definitions::LogWhy;
pub use files::{begin, open_peer};
pub use peer_core::Peer;
pub use resuming::{OldFault, Resumed, resume_from};
pub use session_log::LogFault;
pub use whole::resume_whole;
