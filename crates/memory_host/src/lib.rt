//! A machine in memory as a host, for tests.
//!
//! A test holds a [`Machine`] in a cell, and a [`MemoryHost`] makes the calls of a host on it. So
//! whoever owns the host asks it, and the test stands on the other side of each socket: it lets
//! connections wait, brings bytes, ends and breaks what stands, and reads what was given. It says
//! which calls are refused, how much a write or an append takes, and what a crash would leave.
//! Readiness is told as mio tells it, once for each change.
#![tactic(auto)]

pub mod hosts;
pub mod lines;
pub mod log_file;
pub mod machine;
pub mod mailbox;
pub mod refusals;

pub use hosts::MemoryHost;
pub use lines::Line;
pub use log_file::LogFile;
pub use machine::Machine;
pub use mailbox::{Datagram, Mailbox};
pub use refusals::{Call, Refusal};
