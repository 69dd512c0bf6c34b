//! What an accused player can show of sealed frames that it didn't make, from its own keys.
//!
//! Of frames with valid seals under a player's root, of which the player didn't make one, that one
//! holds a secret that the player's seals never disclosed, or there are two byte strings with one
//! SHA-256 digest. [`blame_frames`] finds the first such frame and says which of the two it is, and
//! where. A law says that frames which show that a player broke the protocol are never all among
//! those that it made, where it plays fair; another, that the frames which an honest log made are
//! made in fair play. That different byte strings have different digests is nowhere supposed. It
//! convinces the player itself: a cheat can claim the same. The crate takes no memory and touches
//! nothing outside.
#![tactic(auto)]

mod blaming;
mod differing;
mod how;
pub mod laws;
mod listing;

pub use blaming::{Blame, blame_frames};
pub use how::{How, blame_frame};
