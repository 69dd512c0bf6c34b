//! How a run ends.

ghost use Rattle.std.specs.Prelude.{◌≡◌};
ghost use Rattle.run_frame.specs.Statuses.{code_of};

use definitions::{LogWhy, MoveFault, SessionRule, Turn};

/// The texts that are read line by line.
#[derive(Clone, Copy, Debug, PartialEq, Eq)]
pub enum TextName {
    /// The lines of the input.
    Script,
    /// The players' addresses and passes.
    Roster,
    /// The moves that a player is to make.
    Moves,
    /// What shows a finding to others.
    Evidence,
    /// The bytes from which a player's keys are made.
    Seed,
    /// The roots of the players' keys.
    Roots,
}

/// How a run ends. `code` gives its exit status.
#[derive(Clone, Copy, Debug, PartialEq, Eq)]
pub enum Status {
    /// The command's end was reached.
    Done,
    /// Memory was wanting.
    NoMemory,
    /// The words are no command, or the player isn't one of the session's.
    Usage,
    /// The session text is not in its grammar: the first faulty line, counted from 1, and the first rule that it breaks.
    BadSession { line: u32, what: SessionRule },
    /// The source or the shelf failed.
    InputFault,
    /// The sink failed.
    OutputFault,
    /// The command's end was reached, and there is a finding.
    Caught,
    /// As many polls were made as were granted, and a further one would be needed.
    GaveUp,
    /// The log could not be begun, kept or synced.
    KeepFault,
    /// Listening or polling failed.
    PollFault,
    /// A log can't be used: its number among those given, counted from 0, the byte at which the fault begins, counted from
    /// 0, and what is wrong there.
    BadLog { log: u32, at: u32, why: LogWhy },
    /// A line of a text is not in its grammar, or is one too many: the text, and the line's number, counted from 1.
    BadLine { text: TextName, line: u32 },
    /// The move given for a turn, counted from 0, is not legal, and why.
    OwnMove { turn: Turn, fault: MoveFault },
    /// A file of sealed frames isn't one: its number among those given, counted from 0, and the first byte, counted from 0,
    /// at which no frame with a valid seal stands.
    BadSeal { file: u32, at: u32 },
}

impl Status {
    /// The exit status, from 0 for Done to 12 for OwnMove, in the order of the variants, and 14 for
    /// BadSeal. No run ends with 13.
    pub fn code(&self) -> u8
        ensures { result ≡ code_of self.now }
    {
        match self {
            Status::Done => 0,
            Status::NoMemory => 1,
            Status::Usage => 2,
            Status::BadSession { .. } => 3,
            Status::InputFault => 4,
            Status::OutputFault => 5,
            Status::Caught => 6,
            Status::GaveUp => 7,
            Status::KeepFault => 8,
            Status::PollFault => 9,
            Status::BadLog { .. } => 10,
            Status::BadLine { .. } => 11,
            Status::OwnMove { .. } => 12,
            Status::BadSeal { .. } => 14,
        }
    }
}
