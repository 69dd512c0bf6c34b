//! A station in memory. It tells its whole history, and a harness brings it sockets and bytes and tells it which calls are to fail.
//!
//! Each call's answer is given exactly, by what was brought and what was told before: `specs/Answers.antt`. A call fails exactly where
//! its number was named, where the room that the station was made with doesn't suffice for what the call would tell, and behind the
//! first call that found it so; and a log is begun under each name once. All memory is taken by `new`; only `image` takes more.
#![tactic(auto)]

mod copies;
mod listing;
pub mod memory;
mod pieces;
mod plan;
mod rows;
mod table;

pub use memory::MemoryStation;
