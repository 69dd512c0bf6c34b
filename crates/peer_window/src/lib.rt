//! Windows: one other player's frames, in any order within eight places of the next one, each held once.
//!
//! A window has two slots for each turn of the player, one for its commitment and one for its reveal, whatever the order of
//! their places. The crate promises that what a window shows is what the definitions say of the frames that it was given, in
//! the order in which they came, for any number of turns that players commit ahead; that a frame is answered by the window's
//! own turn of it, by the places that follow and by the first turn that isn't resolved, never by a look at all frames; and
//! that the first finding is named as soon as there is one. Room for all frames is taken by the constructor; no other call
//! takes memory, and nothing else is touched.
#![tactic(auto)]

mod clashes;
pub mod laws;
mod received;
mod slots;
mod walk;
mod window;

pub use definitions::{Digest, Finding, Kind, Move, PlayerId, Track, Turn, TurnFrame};
pub use received::{Offer, Received};
pub use window::Window;
