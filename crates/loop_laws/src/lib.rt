//! Histories in plain words: what each history of the loop over sockets says, read from its items
//! alone.
//!
//! `loop_rules` says which item may come next by what it keeps of each socket and each player.
//! The laws here follow from those rules, but what they conclude speaks of the items alone: of
//! the bytes taken, given and kept, in the order in which the outside answered. So a reader can
//! check them without those notes. This crate promises the laws of its functions, which return at
//! once, and touches nothing.
#![tactic(auto)]

pub mod laws;
pub mod worked;
