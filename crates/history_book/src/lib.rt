//! The history of a station in memory, and what is read off it again.
//!
//! A `Book` notes each answer that a station gave, and is seen as the whole history. It holds in memory what a harness asks of that
//! history: how many calls were answered, the last dial for each player, the bytes given on each socket, the log, and how much of it was
//! synced when. Its room for items and bytes is taken when it is made, and only told: an item that finds too little room is told all
//! the same, and what the room holds ends there. So a station asks whether a call's item fits before it lets the call do anything.
//! Nothing else takes memory.
#![tactic(auto)]

pub mod book;
mod copies;
pub mod dials;
mod journal;
mod room;
mod store;
mod tally;

pub use book::Book;
pub use dials::Dials;
