//! Reveals: whether a move that a player shows is the one that it committed to, and whether that move is legal; and the
//! digests of frames, by which both are compared.
//!
//! The crate promises that an opening is judged by the digest that was received before it, and only then by the rules: a
//! bad opening is never called illegal, and a good one always gives the track after the move. It takes no memory and
//! touches nothing outside.
#![tactic(auto)]

pub mod digests;
pub mod judging;

pub use definitions::{Digest, MoveFault, Opening, Track};
pub use digests::{frame_digest, same_digest};
pub use judging::{Verdict, check};
