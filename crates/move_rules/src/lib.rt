//! Moves: which are legal from a player's track, and the track that they leave.
//!
//! The crate promises that a move is legal exactly where none of the six faults holds, that the fault named is the first
//! in their order, and that the next track is that of the rules. How far a player walks and strikes is its own; besides
//! that, legality rests on the mover's own earlier moves alone. Walks go around walls, over open cells alone, and may cut
//! corners: they are followed in a window of as many cells on each side as the player's speed, so a judgement takes time
//! by the square of the speed, and none by the size of the grid. It takes no memory, and touches nothing outside.
#![tactic(auto)]

pub mod tracks;
pub mod walker;
mod window;

pub use definitions::{Move, MoveFault, Track};
pub use tracks::{next_track, start_track};
pub use walker::Walker;
