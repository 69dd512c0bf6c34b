//! The text of an exhibit.

ghost use Rattle.std.specs.Prelude.{◌≡◌, ◌++◌, map, IfOk, OnOk};
ghost use Rattle.text_lines.specs.Lines.{joined};
ghost use Rattle.evidence.specs.Text.{exhibit_text, frame_line, head_lines, kind_line};

use crate::exhibit::Exhibit;
use crate::head::Head;
use commitment::put_turn;
use definitions::{Kind, TurnFrame};
use hex::encode_to_slice;
use std::alloc::{AllocError, Global};
use text_fields::name_of_kind;
use text_lines::put_line;

/// Room for the bytes of a frame.
const FRAME_ROOM: usize = 64;

/// Room for the digits that spell them.
const FRAME_DIGITS: usize = 128;

/// Writes the line that says what kind it is.
fn put_kind(out: &mut Vec<u8>, kind: Kind) -> Result<(), AllocError>
    ensures { OnOk result (out.new.items ≡ out.old.items ++ kind_line kind) }
{
    out.extend_from_slice(b"kind ")?;
    out.extend_from_slice(name_of_kind(kind))?;
    out.push(b'\n')?;
    Ok(())
}

/// Writes the lines that stand before those of the frames, in a text of this version, at the end of
/// what `out` has.
///
/// An error comes only where memory runs out; of what `out` then has it says nothing.
pub fn put_head(
    alloc: Global,
    out: &mut Vec<u8>,
    version: u32,
    head: Head,
) -> Result<(), AllocError>
    ensures { OnOk result (out.new.items ≡ out.old.items ++ joined (head_lines version head.player head.turn head.kind)) }
{
    put_line(alloc, out, b"evidence", &[version])?;
    put_line(alloc, out, b"player", &[head.player.into()])?;
    put_line(alloc, out, b"turn", &[head.turn])?;
    put_kind(out, head.kind)?;
    Ok(())
}

/// Writes the line of a frame, `frame HEX` and an LF, at the end of what `out` has. `HEX` spells the
/// bytes of the frame.
///
/// An error comes only where memory runs out; of what `out` then has it says nothing.
pub fn put_frame(out: &mut Vec<u8>, frame: &TurnFrame) -> Result<(), AllocError>
    ensures { OnOk result (out.new.items ≡ out.old.items ++ frame_line frame.now) }
{
    let mut bytes = [0; FRAME_ROOM];
    let count = put_turn(frame, &mut bytes);
    let mut digits = [0; FRAME_DIGITS];
    encode_to_slice(&bytes[..count], &mut digits[..2 * count]).unwrap();
    out.extend_from_slice(b"frame ")?;
    out.extend_from_slice(&digits[..2 * count])?;
    out.push(b'\n')?;
    Ok(())
}

/// Writes the lines of these frames.
fn put_frames(out: &mut Vec<u8>, frames: &[TurnFrame]) -> Result<(), AllocError>
    ensures { OnOk result (out.new.items ≡ out.old.items ++ joined (map frame_line frames.now)) }
{
    for frame in frames {
        put_frame(out, frame)?;
    }
    Ok(())
}

/// The one text that reads as the exhibit. An error comes only where memory runs out.
///
/// What the text is to be read from again, `read_exhibit` says: one frame at least, and at most `MOST_EVIDENCE_FRAMES`.
#[tactic(auto, unfolding(crate::specs::Text::exhibit_text))]
pub fn print_exhibit(alloc: Global, exhibit: &Exhibit) -> Result<Vec<u8>, AllocError>
    ensures { IfOk result (λ text. text.items ≡ exhibit_text exhibit.now) }
{
    let mut out = Vec::new(alloc);
    put_head(alloc, &mut out, 1, exhibit.head())?;
    put_frames(&mut out, exhibit.frames.as_slice())?;
    put_line(alloc, &mut out, b"end", &[])?;
    Ok(out)
}
