//! How far a depositor came.

/// How far a depositor came. After a fault nothing comes.
#[derive(Clone, Copy, Debug, PartialEq, Eq)]
pub enum DepositPhase {
    /// It dials, reads, gives and polls as the rules say.
    Giving,
    /// `poll` failed.
    PollFault,
}
