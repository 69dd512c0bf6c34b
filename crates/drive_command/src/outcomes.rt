//! What became of a line, and of bytes that it brings.

ghost use Rattle.std.specs.Prelude.{◌≡◌};
ghost use Rattle.drive_command.specs.Outcomes.{is_last};

use definitions::{GotAnswer, OwnFault, PlayerId, Turn};
use text_fields::Piece;
use wire_frames::Place;

/// The peer's answer to a frame of this place. The log had so many entries before.
#[derive(Clone, Copy)]
pub(crate) struct Reply {
    pub(crate) place: u64,
    pub(crate) answer: GotAnswer,
    pub(crate) entries: usize,
}

/// What became of a line that is told at once.
#[derive(Clone, Copy)]
pub(crate) enum Answered {
    /// It was passed over.
    Nothing,
    /// The player chose, which is refused where there is a fault. The turn is the one that was to be chosen, and the
    /// log had so many entries before.
    Choice {
        turn: Turn,
        fault: Option<OwnFault>,
        entries: usize,
    },
    /// A frame came from a player, and the peer answered it.
    Received(PlayerId, Reply),
    /// The log is to be printed.
    Log,
    /// The own score is to be printed.
    Score,
}

/// What became of a line.
#[derive(Drop)]
pub(crate) enum Outcome {
    /// It is in no grammar, or one too many, and nothing changed.
    Bad,
    /// It is told at once.
    AtOnce(Answered),
    /// It brings these bytes from a player, which are to be read.
    Bytes(PlayerId, Piece),
}

/// What arrived in bytes that come from a player, and what became of it.
#[derive(Clone, Copy)]
pub(crate) enum Arrival {
    /// No further frame is whole.
    More,
    /// The player greets.
    Hello,
    /// The player wants the frame of a place.
    Want(Place),
    /// A frame of a turn, which the peer answered.
    Received(Reply),
    /// A byte at this place of all that came from the player, with which no frame can go on.
    Bad(u64),
}

/// What arrived, and how many of the bytes were used.
#[derive(Clone, Copy)]
pub(crate) struct Part {
    pub(crate) used: usize,
    pub(crate) arrival: Arrival,
}

/// Whether nothing arrives behind it.
pub(crate) fn is_last(arrival: &Arrival) -> bool
    ensures { result ≡ is_last arrival.now }
{
    matches!(arrival, Arrival::More | Arrival::Bad(_))
}
