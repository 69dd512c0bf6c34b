//! How far a logger came.

/// How far a logger came. After a fault nothing comes.
#[derive(Clone, Copy, Debug, PartialEq, Eq)]
pub enum WatchPhase {
    /// Before the first call.
    Fresh,
    /// It listens.
    Running,
    /// `listen` or `poll` failed.
    PollFault,
}
