//! Seals: one-time keys by Lamport's scheme, one for each place of a player's stream, under one
//! root, the top of a Merkle tree, which everybody knows.
//!
//! A player's [`SealKeys`] come from a seed of 32 bytes alone. A [`Seal`] of a frame discloses half
//! of the secrets of its place, by the bits of the frame's digest, and leads to the root; [`valid`]
//! says whether it does. The crate promises that keys, seals and their check are exactly those of
//! `specs/`, that a seal is valid under the root of its keys, and that keys seal a place for one
//! digest alone. It says where a valid seal departs from the keys; not whether anybody can find a
//! secret that wasn't disclosed. A secret hashes the seed and its place, no session and no player:
//! a seed is for one player of one session. The crate takes memory from the allocator that it is
//! given, in `SealKeys::new` and `Seal::new` alone, and touches nothing else.
#![tactic(auto)]

mod answer;
mod checking;
mod departures;
mod keys;
pub mod laws;
mod messages;
mod seal;
mod sealing;
mod tree;
mod values;

pub use answer::SealAnswer;
pub use checking::valid;
pub use keys::SealKeys;
pub use messages::{bit_of, message_of, place_in};
pub use seal::Seal;
