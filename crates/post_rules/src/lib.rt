//! The rules of the loop over datagrams, as definitions.
//!
//! A history is the list of what a post was asked and answered. This crate says what such a list
//! shows at each moment, which item may come next, and when a poll is licensed. It promises the
//! laws of its functions, which return at once, and touches nothing.
#![tactic(auto)]

mod drops;
pub mod laws;
mod limits;
mod partners;

pub use drops::{Cause, Drops};
pub use limits::{MOST_DATAGRAMS, MOST_FRAMES};
pub use partners::Partner;
