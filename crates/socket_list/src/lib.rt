//! The sockets of whoever listens: those that a poll listed as new, up to the most that are
//! accepted, each as a line of `socket_lines`.
//!
//! A list, [`Sockets`], knows nothing of what is said on a socket but its first frame, which may
//! name it: of two sockets of one name the newer stays. This crate promises of each change that it
//! is the one that the words of `specs/Sockets.antt` say, that the sockets in a list differ, and
//! that there is room for all that may come. It takes memory only when a list is made, and touches
//! nothing outside.
//!
//! What one call makes of all lines stands in [`lines`], and the lemmas of such lists in `proofs/`:
//! the table of a peer's loop is made of them too.
#![tactic(auto)]

mod changing;
mod greeting;
pub mod lines;
mod polling;
mod sockets;

pub use sockets::{MOST_SOCKETS, Sockets};
