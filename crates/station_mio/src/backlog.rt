//! Whether connections wait to be accepted.

/// Whether connections wait to be accepted.
#[derive(Clone, Copy, PartialEq, Eq)]
pub(crate) enum Backlog {
    /// None did when it was last looked for.
    Empty,
    /// Some may, and the next poll accepts them without a wait.
    Waiting,
    /// Some may, but one couldn't be accepted: the next poll tries again.
    Refused,
}
