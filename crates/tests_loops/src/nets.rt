//! Nets of loops over stations in memory: a side is a loop with its station, and a net carries
//! what is given on one socket to the other side of it, as a network would.

pub mod frames;
pub mod greets;
pub mod grounds;
pub mod heard;
pub mod links;
pub mod setups;
pub mod sides;
