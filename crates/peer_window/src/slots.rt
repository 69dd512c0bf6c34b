//! A window's slots: two for each turn, that of its commitment and then that of its reveal.

ghost use Rattle.std.specs.Prelude.{◌≡◌, ◌*◌, ◌+◌};
ghost use Rattle.peer_window.specs.Slots as S;

use crate::received::Received;
use definitions::{Turn, TurnFrame};

/// The slot of a turn's commitment.
pub(crate) fn commitment_slot(turn: Turn) -> u64
    ensures { result ≡ 2 * turn }
{
    2 * u64::from(turn)
}

/// The slot of a turn's reveal.
pub(crate) fn reveal_slot(turn: Turn) -> u64
    ensures { result ≡ 2 * turn + 1 }
{
    2 * u64::from(turn) + 1
}

/// The slot of a frame. Its turn may be any, so that the number may pass 32 bits.
pub(crate) fn slot_of(frame: &TurnFrame) -> u64
    ensures { result ≡ S.slot_of frame.now }
{
    match *frame {
        TurnFrame::Commit { turn, .. } => commitment_slot(turn),
        TurnFrame::Reveal { turn, .. } => reveal_slot(turn),
    }
}

/// The slot of the turn's other frame.
pub(crate) fn other_slot(frame: &TurnFrame) -> u64
    ensures { result ≡ S.other_slot frame.now }
{
    match *frame {
        TurnFrame::Commit { turn, .. } => reveal_slot(turn),
        TurnFrame::Reveal { turn, .. } => commitment_slot(turn),
    }
}

/// What the slot holds. Nothing is held past the last.
pub(crate) fn slot(slots: &[Option<Received>], at: u64) -> Option<Received>
    ensures { result ≡ S.slot slots.now at }
{
    if at < slots.len() as u64 {
        slots[at as usize]
    } else {
        None
    }
}
