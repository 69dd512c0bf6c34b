//! Commitments: the bytes of an opening, their SHA-256 digest, and the frames that carry a commitment and its reveal.
//!
//! A player commits to its move of a turn by the digest of its opening (Baughman and Levine 2001; the digest is that of
//! FIPS 180-4), and shows the opening later. This crate promises that an opening and a frame are written as their one
//! spelling and no other, that the digest is that of the opening's bytes, and that a frame is read exactly where its
//! whole spelling stands. It takes no memory and touches nothing outside.
#![tactic(auto)]

pub mod frames;
pub mod laws;
pub mod openings;

pub use definitions::{Digest, Finding, Kind, Nonce, Opening, Spot, TurnFrame};
pub use frames::{has_head, put_turn, whole_turn};
pub use openings::{digest_of, frame_of, opening_bytes, opens};
