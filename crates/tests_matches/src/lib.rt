//! Whole matches of three loops over the station that ships, on machines in memory, as tests.
//!
//! What can fail here while the proofs hold: the loop, the station's own code and the calls of the
//! machine together. Each is proved alone, and no clause says that a match comes to its end where
//! writes are partial or would block, connections are reset or half closed, appends are short, the
//! disk is full, calls are refused (as where no descriptor is left), or the clock is one that is
//! handed in. A library without functions of its own: everything in it is a test.
#![tactic(auto)]

#[cfg(test)]
mod cables;
#[cfg(test)]
mod courses;
#[cfg(test)]
mod crashes;
#[cfg(test)]
mod grounds;
#[cfg(test)]
mod liars;
#[cfg(test)]
mod machines;
#[cfg(test)]
mod refusals;
#[cfg(test)]
mod seats;
#[cfg(test)]
mod tables;
