//! The sockets and the other players of a loop, side by side.
//!
//! A table holds the lines of the sockets that were opened since the last poll and before, a seat for each other player, and the frames that
//! came and are not handled yet. This crate promises of each change that it is the one that the rules of the loop name, takes memory only
//! when a table is made, and touches nothing outside. What reading, giving and closing leave as it was, and how many bytes
//! a loop may still take or give on one line, are lemmas in `proofs/`, which the loop above cites.
#![tactic(auto)]

mod changing;
mod finding;
mod frame_list;
mod hearing;
mod hears;
mod naming;
mod polling;
mod questions;
mod reading;
mod table;
mod writing;

pub use frame_list::FrameList;
pub use hears::Hears;
pub use table::{MOST_TAKEN, Table};
