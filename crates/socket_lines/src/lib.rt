//! One socket of a loop, and one other player, as the loop keeps them.
//!
//! A line is an open socket: whom it was dialled for, who its HELLO names, what was read of the frame begun, and what is due on it. A seat is
//! what is known of another player, whichever sockets it had: the bytes read of it, the place that it asked for, and the places that it is to
//! be asked for. This crate promises of each change that it is the one that the words of its definitions say, takes memory only for the places
//! to be asked for, once, and touches nothing outside.
#![tactic(auto)]

mod asks;
mod giving;
mod limits;
mod line;
mod seat;
mod unsent;

pub use asks::Asks;
pub use giving::{Due, due_bytes, give, has_due};
pub use limits::{HELLO_BYTES, MOST_ACCEPTED, MOST_BYTES, MOST_WANTS};
pub use line::Line;
pub use seat::Seat;
pub use unsent::Unsent;
