//! Peers and what stands below them, as tests: beside plain programs, by worked values from
//! outside, at the largest sizes, and where there is ample memory.
//!
//! What can fail here while the proofs hold: that a definition says what was meant, where an
//! independent program or a text by hand says otherwise; that the largest inputs take little
//! time, little stack and no more memory than there is; and that a call says that memory is
//! wanting where there is enough, for no clause says when it isn't. Calls that take memory stand
//! here where no program of the gate makes them.
#![tactic(auto)]

#[cfg(test)]
mod audits;
#[cfg(test)]
mod collisions;
#[cfg(test)]
mod cuts;
#[cfg(test)]
mod exhibits;
#[cfg(test)]
mod frame_bytes;
#[cfg(test)]
mod frames;
#[cfg(test)]
mod grounds;
#[cfg(test)]
mod growths;
#[cfg(test)]
mod indexed_frames;
#[cfg(test)]
mod longest;
#[cfg(test)]
mod pilot_moves;
#[cfg(test)]
mod pilot_scripts;
#[cfg(test)]
mod plain;
#[cfg(test)]
mod roster_texts;
#[cfg(test)]
mod sessions;
#[cfg(test)]
mod settles;
#[cfg(test)]
mod sixteen;
