//! The play of all players' moves, turn by turn: where each player comes to stand, with which charge, and whom it hits.
//!
//! A [`Playout`] plays whole turns of all players in lockstep, or counts the hits of one player's own turns against the moves
//! of the others that are known. Players may walk and strike differently far; whoever asks for a turn has judged its moves.
//! The crate promises that the tracks and the scores are those of the rules, and that a player's own turns against the moves of
//! all the others count what the same turns of all do. All memory is taken by `new`, and nothing else is touched.
#![tactic(auto)]

mod hits;
pub mod laws;
mod standing;
mod turns;

pub use definitions::{Move, PlayerId, Track};
pub use hits::Score;
pub use turns::Playout;
