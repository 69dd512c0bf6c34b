//! Loops of players over stations in memory, as tests: whole matches, one over an engine's own
//! station, floods, links that are lost, one failing call at each place, stops at each item, and
//! orders in which bytes come.
//!
//! What can fail here while the proofs hold: that a match comes to its end, which no clause says
//! of two loops together, that memory is enough where there is some, and that the limits and the
//! order of calls are those that players were told of.
#![tactic(auto)]

#[cfg(test)]
mod dialled;
#[cfg(test)]
mod embedding;
#[cfg(test)]
mod engines;
#[cfg(test)]
mod matches;
#[cfg(test)]
mod nets;
#[cfg(test)]
mod stops;
