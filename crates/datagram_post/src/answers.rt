//! What a post is asked and answers.

/// How many bytes of a datagram are taken at most: of a longer one the first.
pub const MOST_TAKEN: usize = 128;

/// What a receive answers.
#[derive(Clone, Copy, Debug, PartialEq, Eq)]
pub enum Received {
    /// So many bytes, perhaps none, now stand at the front of the buffer: a datagram, or the first
    /// bytes of a longer one. The rest of the buffer may be anything.
    Took(usize),
    /// Nothing is there now.
    NotYet,
    /// The call failed, and its count of faults rose.
    Failed,
}

/// What a send answers.
#[derive(Clone, Copy, Debug, PartialEq, Eq)]
pub enum Sent {
    /// The datagram was given whole.
    Gave,
    /// It can't be given now.
    NotYet,
    /// The call failed, and its count of faults rose.
    Failed,
}
