//! How far a loop came.

/// How far a loop came. Behind a fault nothing comes.
#[derive(Clone, Copy, Debug, PartialEq, Eq)]
pub enum Phase {
    /// Before the first call.
    Fresh,
    /// The log is begun.
    Logged,
    /// The entries taken over are kept and synced, and the loop listens.
    Running,
    /// `log_to`, `keep` or `sync` failed.
    KeepFault,
    /// `listen` or `poll` failed.
    PollFault,
}
