//! Spheres of influence: what a player can affect in a turn.
//!
//! The crate promises that [`sphere_of`] leaves exactly the cells that the definitions of the game call the sphere of
//! a set: those within the reach of a strike, and its blast, of a cell to which the player walks in a turn, each by that
//! player's own speed and reach. [`grow_strike`] is the strike alone, for a caller who has the set of that walk already. The
//! crate takes no memory, and touches nothing but the set that it is given.
#![tactic(auto)]

mod sphere;

pub use sphere::{grow_strike, sphere_of};
