//! The sockets and the log of a station, the datagrams of a post, and the files of a shelf, over a
//! machine in memory, as tests.
//!
//! What can fail here while the proofs hold: that a station or a post gets on with a machine that
//! does what it should, which no clause says of a machine. A library without functions of its own: everything
//! in it is a test.
#![tactic(auto)]

#[cfg(test)]
mod files;
#[cfg(test)]
mod logs;
#[cfg(test)]
mod mails;
#[cfg(test)]
mod other_side;
#[cfg(test)]
mod wires;
