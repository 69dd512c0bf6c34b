//! Logs as they come, piece by piece: what came of each player's, and the entries that it gives.
//!
//! A stream has the pieces that came of one player's log, and whether a byte closed the player.
//! Whoever takes logs is told by these words, whatever brings the pieces: a file's calls, or the
//! sockets of a live logger. There is no code here but a law, whose function returns at once. What
//! one piece more makes of a log are lemmas in `proofs/`, which the crates above cite.
#![tactic(auto)]

pub mod laws;
