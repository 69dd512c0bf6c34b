//! What is wrong with a log.

use definitions::LogWhy;

/// The first fault of a session log: one record of it, for whoever reads or takes logs.
#[derive(Clone, Copy, Debug, PartialEq, Eq)]
pub struct LogFault {
    /// The byte from which on the log can't be used, counted from 0: that where the faulty entry
    /// begins. Where a log has too many bytes, it is the first of those that are too many.
    pub at: u32,
    /// What is wrong there.
    pub why: LogWhy,
}
