//! The log that a player keeps of a session, as bytes: written entry by entry, and read again.
//!
//! An entry stands in the log with its length, its kind, and a digest that chains it to all entries before it (SHA-256 of
//! FIPS 180-4), so a log that was cut short or changed is told from a whole one, up to two byte strings with one digest.
//! This crate promises that a log is written as its one spelling, that what was written is read again, and that a log
//! which isn't whole is answered with the first fault that it has and the byte where the faulty entry begins; and that a log
//! which comes in pieces is read as the same entries and ends in the same way, whatever the pieces. It takes no memory and
//! touches nothing outside. A log holds the nonces of moves that may not be revealed yet: it is handed on only
//! when the session is over.
#![tactic(auto)]

mod bodies;
mod entries;
mod faults;
mod feed;
mod finding;
pub mod laws;
mod part;
mod reader;
mod writer;

pub use definitions::{Entry, LogWhy};
pub use entries::{NO_ENTRY, read_entry};
pub use faults::LogFault;
pub use feed::{LogFed, LogFedWhat, LogFeed, LogStep};
pub use reader::{LogReader, Next};
pub use writer::LogWriter;
