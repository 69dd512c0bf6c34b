//! How a loop of a peer begins and ends, and what is told of it then, whatever carries its frames.
//!
//! The loops over sockets and over datagrams begin by [`Begun`] and end by [`Ended`], and are told of
//! by [`Played`]: the peer that played, and how many of its own frames each other player has. It
//! touches nothing and takes no memory.
#![tactic(auto)]

mod ends;

pub use ends::{Begun, Ended, Played};
