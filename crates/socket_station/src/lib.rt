//! The outside of a peer as one trait: sockets to other peers, and a log that stays.
//!
//! A station is seen as its history: one item for each answer that its calls gave, in order. All else that is said of a station
//! follows from that list: how each socket number stands, how many calls of each kind failed, and which bytes were taken, given and
//! kept. Every station tells its whole history, also one that can't show what its peers send: it notes each answer in
//! `StationNotes`, which only proofs read. So code over this trait tells exactly what it asked for and got, can't blame the outside
//! for a fault that never came, and can't hide one. Nothing here takes memory.
#![tactic(auto)]

pub mod answers;
pub mod laws;
pub mod notes;
pub mod ready_list;
pub mod stations;

pub use answers::{Addr, Dial, Did, Ready, SocketId, SocketRead, SocketWrite, Standing};
pub use notes::StationNotes;
pub use ready_list::ReadyList;
pub use stations::Station;
