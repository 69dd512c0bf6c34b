//! The plain data that the crates of this repository speak of, and in `specs/` the definitions of the game and of its
//! protocol, after Baughman and Levine, "Cheat-Proof Playout for Centralized and Distributed Online Games" (INFOCOM
//! 2001).
//!
//! The data is `Copy` with public fields, and all that it does by itself is that a frame tells its player and its turn. The
//! crate touches nothing outside, and takes no memory. Each limit has one name, in `limits`, which contracts cite too. What the words of the
//! data mean is said in `specs/`, one subject a file: the grid world, walks,
//! spheres of influence, legal moves, openings and their commitments, places in a stream, logs, what a log knows of a
//! player, who meets whom, what a peer may do and whom it waits for, findings, answers, and steps. Laws about them stand
//! in the crate `definition_laws`.
#![tactic(auto)]

pub mod answers;
pub mod findings;
pub mod frames;
pub mod limits;
pub mod logs;
pub mod openings;
pub mod places;
pub mod sessions;
pub mod world;

pub use answers::{GotAnswer, Need, OwnFault, Progress};
pub use findings::{Finding, Kind, Spot};
pub use frames::{TurnFrame, What};
pub use logs::{Entry, LogWhy};
pub use openings::{Digest, Nonce, Opening};
pub use places::{FramePlace, Place, Slot};
pub use sessions::SessionRule;
pub use world::{Cell, Move, MoveFault, PlayerId, Seat, Track, Turn};
