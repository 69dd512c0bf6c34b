//! The limit of an index.

/// The most logs that an index stands for.
pub const MOST_LOGS: u32 = 64;
