//! Loops of players over posts in memory, as tests: whole matches over lines that lose, repeat and
//! reorder datagrams, and one failing call at each place.
//!
//! What can fail here while the proofs hold: that loops come to the end of a match together, which
//! no clause says, and that memory is enough where there is some. Also that a datagram and a log
//! have the bytes that were worked out by hand. A library without functions of its own: all of it is
//! a test.
#![tactic(auto)]

#[cfg(test)]
mod alone;
#[cfg(test)]
mod grounds;
#[cfg(test)]
mod lines;
#[cfg(test)]
mod matches;
#[cfg(test)]
mod sides;
