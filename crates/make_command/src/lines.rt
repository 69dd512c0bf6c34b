//! The printed lines of a match, each in a buffer of its own.

ghost use Rattle.std.specs.Prelude.{◌≡◌};
ghost use Rattle.make_command.specs.Make as M;

use crate::summary::Summary;
use arrayvec::ArrayVec;
use itoa::Buffer;

/// Room for the lines before those of the players, which have at most 114 bytes.
const HEAD_ROOM: usize = 128;

/// The first lines.
pub(crate) type HeadLines = ArrayVec<u8, HEAD_ROOM>;

/// The lines before those of the players: the session's size, and what was counted.
#[tactic(auto, unfolding(crate::specs::Make::head_text))]
pub(crate) fn head_lines(summary: &Summary) -> HeadLines
    ensures { result.items ≡ M.head_text summary.now }
{
    let mut lines = ArrayVec::new();
    lines
        .try_extend_from_slice(b"players 8 turns 200\nchosen ")
        .unwrap();
    lines
        .try_extend_from_slice(Buffer::new().format(summary.chosen).as_bytes())
        .unwrap();
    lines.try_extend_from_slice(b"\ndelivered ").unwrap();
    lines
        .try_extend_from_slice(Buffer::new().format(summary.delivered).as_bytes())
        .unwrap();
    lines.try_extend_from_slice(b"\nlost ").unwrap();
    lines
        .try_extend_from_slice(Buffer::new().format(summary.lost).as_bytes())
        .unwrap();
    lines.try_extend_from_slice(b"\nrepeated ").unwrap();
    lines
        .try_extend_from_slice(Buffer::new().format(summary.repeated).as_bytes())
        .unwrap();
    lines.try_extend_from_slice(b"\nfindings ").unwrap();
    lines
        .try_extend_from_slice(Buffer::new().format(summary.findings).as_bytes())
        .unwrap();
    lines.push(b'\n');
    lines
}
