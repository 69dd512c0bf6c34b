//! What C is told, and what it tells.

/// Why a session's text or a log was refused, or from which byte on the log was dropped.
#[repr(C)]
#[derive(Clone, Copy)]
pub struct Refusal {
    /// The line of the session's text that is at fault, from 1, and the rule that it breaks.
    pub line: u32,
    pub rule: u32,
    /// The byte of the log, from 0, from which on it can't be used or was dropped, and why it can't be used.
    pub at: u32,
    pub why: u32,
    pub dropped: bool,
}

/// A track, with the number of turns that it stands behind and the next place of the stream.
#[repr(C)]
#[derive(Clone, Copy)]
pub struct TrackView {
    pub turns: u32,
    pub next: u32,
    pub x: u16,
    pub y: u16,
    pub charge: u8,
}

/// For whom a peer waits.
#[repr(C)]
#[derive(Clone, Copy)]
pub struct NeedView {
    pub turn: u32,
    pub next: u32,
    pub what: u32,
    pub player: u8,
}

/// Who broke the protocol, and the entries of the log that show it.
#[repr(C)]
#[derive(Clone, Copy)]
pub struct FindingView {
    pub turn: u32,
    pub kind: u32,
    pub first: u32,
    pub second: u32,
    pub player: u8,
}

/// A move, with or without a strike.
#[repr(C)]
#[derive(Clone, Copy)]
pub struct MoveView {
    pub x: u16,
    pub y: u16,
    pub strike_x: u16,
    pub strike_y: u16,
    pub strikes: bool,
}

/// How many own turns are settled, and the hits that the peer gave and took in them.
#[repr(C)]
#[derive(Clone, Copy)]
pub struct ScoreView {
    pub settled: u32,
    pub given: u32,
    pub taken: u32,
}

/// What a hello or a want told: the place that the other wants next, whose hello it is, whether it names this session, and the pass that it shows.
#[repr(C)]
#[derive(Clone, Copy)]
pub struct GreetView {
    pub next: u32,
    pub player: u8,
    pub same_session: bool,
    pub pass: [u8; 16],
}
