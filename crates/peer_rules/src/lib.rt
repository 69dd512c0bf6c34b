//! The rules of a peer's loop that speak neither of sockets nor of datagrams.
//!
//! Which entry of the log comes next, where a player makes and chooses all that it may before it
//! hears (`specs/Order.antt`), and which one bytes spell; how far a loop came; and by which address
//! and pass a player is known. The rules of both loops stand on it. The crate has definitions alone:
//! it touches nothing and takes no memory.
#![tactic(auto)]

mod arrivals;
mod phases;

pub use arrivals::Arrival;
pub use phases::Phase;
