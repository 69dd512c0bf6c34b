//! What is written at the end of a match, whatever carried its frames, and by which status it ends.
//!
//! [`end`] writes what the end was, whom the peer waits for and what the others lack, or how it
//! stands, what its log shows of each player, and the own score (`specs/Ends.antt`). It touches the
//! sink that it is given, and takes no memory.
#![tactic(auto)]

mod ends;
mod lines;

pub use ends::end;
