//! Laws about the definitions of the protocol: functions that do nothing, whose clauses are proved.
//!
//! What each law says stands in `specs/`, one subject a file. `specs/FairPlay.antt` says what a log of fair play is: each
//! reveal made follows a received commitment to its turn of every other player whose dilated sphere met the owner's, and
//! each move accepted of another player opens the commitment held. Every honest log is one (`fair_logs`). The crate
//! promises nothing that happens when a program runs: its functions return at once. The crates that play the protocol
//! cite the lemmas of `proofs/`.
#![tactic(auto)]

pub mod fair_logs;
pub mod geometry;
pub mod logs;
pub mod moments;
pub mod steps;
pub mod streams;
pub mod worked;
