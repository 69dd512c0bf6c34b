//! The rules of the loop over sockets, as definitions.
//!
//! A history is the list of what a station was asked and answered. This crate says what such a list shows at each moment, which item may
//! come next, when a poll is licensed, and what a crash leaves of a log. It promises the laws of its functions, which return at once,
//! and touches nothing.
#![tactic(auto)]

pub mod laws;
pub mod worked;
