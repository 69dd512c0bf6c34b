//! The machine's own sockets, datagrams, files and clock, as tests: calls over loopback, log files, and matches over them.
//!
//! What can fail here while the proofs hold: no contract says what comes over a wire, stands on a disk, or how long a
//! call waits. A library without functions of its own: everything in it is a test.
#![tactic(auto)]

#[cfg(test)]
mod fields;
#[cfg(test)]
mod log_texts;
#[cfg(test)]
mod loopback;
#[cfg(test)]
mod lossy;
#[cfg(test)]
mod mailboxes;
#[cfg(test)]
mod matches;
#[cfg(test)]
mod runs;
