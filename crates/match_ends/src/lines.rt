//! The lines that are only printed at the end of a match.

ghost use Rattle.std.specs.Prelude.{◌≡◌};
ghost use Rattle.match_ends.specs.Ends as E;

use arrayvec::ArrayVec;
use definitions::{MoveFault, Place, PlayerId, Turn};
use itoa::Buffer;
use report_lines::{ReportLine, name_of_fault};

/// What is written where the move of the turn is not legal.
#[tactic(auto, unfolding(crate::specs::Ends::own_move_text))]
pub(crate) fn own_move_line(turn: Turn, fault: MoveFault) -> ReportLine
    ensures { result.items ≡ E.own_move_text turn fault }
{
    let mut line = ArrayVec::new();
    line.try_extend_from_slice(b"own move ").unwrap();
    line.try_extend_from_slice(Buffer::new().format(turn).as_bytes())
        .unwrap();
    line.push(b' ');
    line.try_extend_from_slice(name_of_fault(fault)).unwrap();
    line.push(b'\n');
    line
}

/// What is written of a player that has so many own frames and lacks more.
#[tactic(auto, unfolding(crate::specs::Ends::unsent_text))]
pub(crate) fn unsent_line(player: PlayerId, given: Place) -> ReportLine
    ensures { result.items ≡ E.unsent_text player given }
{
    let mut line = ArrayVec::new();
    line.try_extend_from_slice(b"unsent ").unwrap();
    line.try_extend_from_slice(Buffer::new().format(player).as_bytes())
        .unwrap();
    line.push(b' ');
    line.try_extend_from_slice(Buffer::new().format(given).as_bytes())
        .unwrap();
    line.push(b'\n');
    line
}
