//! The outside of a peer over datagrams as one trait: datagrams that come and go, and a log.
//!
//! A post is seen as its history: one item for each answer that its calls gave, in order. How many
//! calls of each kind failed, which datagrams were taken and given, and which bytes were kept, all
//! follow from that list. Every post tells its whole history. One that can't show what goes over a
//! wire notes each answer in `PostNotes`, which only proofs read. Datagrams may be lost, repeated
//! and reordered, and nothing here says that one that was given comes anywhere. It touches nothing
//! but the post that it is given, and takes no memory.
#![tactic(auto)]

pub mod answers;
pub mod laws;
pub mod notes;
pub mod posts;

pub use answers::{MOST_TAKEN, Received, Sent};
pub use notes::PostNotes;
pub use posts::Post;
