//! What a station is asked and answers.

/// A socket's number. A station never uses one twice.
pub type SocketId = u32;

/// Where a peer is found.
#[derive(Clone, Copy, Debug, PartialEq, Eq)]
pub struct Addr {
    pub ip: [u8; 4],
    pub port: u16,
}

/// Whether a call did what it was asked.
#[derive(Clone, Copy, Debug, PartialEq, Eq)]
pub enum Did {
    Done,
    /// It failed, and its count of faults rose.
    Failed,
}

/// What a dial answers.
#[derive(Clone, Copy, Debug, PartialEq, Eq)]
pub enum Dial {
    /// A new socket, which is open from now on.
    Socket(SocketId),
    /// It failed, and its count of faults rose.
    Failed,
}

/// What a poll lists.
#[derive(Clone, Copy, Debug, PartialEq, Eq)]
pub enum Ready {
    /// A new socket, which is open from now on.
    Opened(SocketId),
    /// A socket that may be ready, perhaps falsely.
    Socket(SocketId),
}

/// What a read answers.
#[derive(Clone, Copy, Debug, PartialEq, Eq)]
pub enum SocketRead {
    /// So many bytes, at least 1, now stand at the front of the buffer. The rest of the buffer may be anything.
    Took(usize),
    /// Nothing is there now.
    NotYet,
    /// Nothing comes any more, and the socket is closed.
    Ended,
    /// The call failed, its count of faults rose, and the socket is closed.
    Failed,
}

/// What a write answers.
#[derive(Clone, Copy, Debug, PartialEq, Eq)]
pub enum SocketWrite {
    /// So many of the first bytes, at least 1, were given.
    Gave(usize),
    /// Nothing can be given now.
    NotYet,
    /// The call failed, its count of faults rose, and the socket is closed.
    Failed,
}

/// How a socket number stands.
#[derive(Clone, Copy, Debug, PartialEq, Eq)]
pub enum Standing {
    /// The number was never used.
    Fresh,
    /// It may be read, written and shut.
    Open,
    /// It ended, failed or was shut.
    Closed,
}
