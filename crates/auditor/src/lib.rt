//! The auditor of logs: it takes the logs of a session entry by entry, in any interleaving, and tells what they show together.
//!
//! An [`Auditor`] keeps no log. It keeps the index of the frames that the logs got, that of the frames that their owners made, and
//! counts the entries of each log. The crate promises that whatever the interleaving, the auditor stands for the logs of which it
//! took the entries: its [`Report`] lists the findings that the crate `definitions` has of these logs, and [`Auditor::exhibit`]
//! gives for each of them frames by which it is shown without any log.
//!
//! An auditor keeps the allocator that it was made with, and takes from it the memory for what it keeps; all other calls say in
//! their parameters where memory comes from. A want of memory changes nothing that the auditor promises. Nothing outside is
//! touched.
#![tactic(auto)]

mod agreed;
mod auditor;
mod batches;
mod common;
mod exhibit;
mod frames;
mod reading;
mod report;
mod taking;
mod turns;
mod world;

pub use auditor::Auditor;
pub use batches::Batch;
pub use definitions::{Entry, Finding, PlayerId};
pub use evidence::Exhibit;
pub use frame_index::MOST_LOGS;
pub use report::Report;
pub use taking::BATCH;
pub use world::WorldLine;
