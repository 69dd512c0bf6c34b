//! An exhibit is read from its text.

ghost use Rattle.std.specs.Prelude.{◌≡◌, ◌<◌, ◌≤◌, option_map, IfOk};
ghost use Rattle.text_lines.specs.Lines.{ended_lines_of};
ghost use Rattle.text_lines.specs.Reading.{line_at};
ghost use Rattle.text_lines.specs.Answers.{Faults, Gives, IsRead, Says};
ghost use Rattle.text_fields.specs.declared.fault.TextFault.TheVariants.{At, Memory};
ghost use Rattle.text_fields.specs.Faults.{is_memory};
ghost use Rattle.evidence.specs.declared.exhibit.Exhibit.{Exhibit};
ghost use Rattle.evidence.specs.Reading as spec;
ghost use Rattle.evidence.specs.Reading.{digits_said, exhibit_at, exhibit_fault, frame_at, frame_said, frames_at, head_at, kind_said, line_behind};
ghost use Rattle.evidence.specs.Answers.{IsReadFrom};

use crate::exhibit::{Exhibit, FrameList};
use crate::head::Head;
use definitions::limits::{GREATEST_PLAYER, LONGEST_LINE, MOST_EVIDENCE_FRAMES};
use definitions::{Kind, TurnFrame};
use std::alloc::Global;
use text_fields::{TextFault, read_frame};
use text_lines::{is_last_line, one_within_at, take_line};

/// The kind that a line says.
fn kind_of(line: &[u8]) -> Option<Kind>
    ensures { result ≡ kind_said line.now }
{
    if line == b"kind two-commits\n".as_slice() {
        Some(Kind::TwoCommits)
    } else if line == b"kind bad-opening\n".as_slice() {
        Some(Kind::BadOpening)
    } else if line == b"kind collision\n".as_slice() {
        Some(Kind::Collision)
    } else if line == b"kind illegal\n".as_slice() {
        Some(Kind::Illegal)
    } else {
        None
    }
}

/// The kind that line 4 says, and the text behind the line.
fn kind_at(text: &[u8]) -> Result<(Kind, &[u8]), TextFault>
    ensures { Says (λ x. (x.0, ended_lines_of x.1.now)) result (line_at (At 4) kind_said (ended_lines_of text.now)) }
{
    let (line, rest) = take_line(text);
    match kind_of(line) {
        None => Err(TextFault::At(4)),
        Some(kind) => Ok((kind, rest)),
    }
}

/// What lines 1 to 4 of a text of this version say, and the text that follows them. `At` names the
/// first of them that is in another form, of another version, or missing.
#[tactic(auto, unfolding(crate::specs::Reading::head_at))]
pub fn read_head(version: u32, text: &[u8]) -> Result<(Head, &[u8]), TextFault>
    ensures { Says (λ x. (x.0, ended_lines_of x.1.now)) result (head_at version (ended_lines_of text.now)) }
{
    let (_version, rest) = one_within_at(TextFault::At(1), b"evidence", version, version, text)?;
    let (player, rest) = one_within_at(
        TextFault::At(2),
        b"player",
        0,
        GREATEST_PLAYER.into(),
        rest,
    )?;
    let (turn, rest) = one_within_at(TextFault::At(3), b"turn", 0, u32::MAX, rest)?;
    let (kind, rest) = kind_at(rest)?;
    let head = Head {
        player: player as u8,
        turn,
        kind,
    };
    Ok((head, rest))
}

/// The digits of a frame's line.
fn digits_of(line: &[u8]) -> Option<&[u8]>
    ensures { option_map (λ d. d.now) result ≡ digits_said line.now }
{
    line.strip_prefix(b"frame ")?.strip_suffix(b"\n")
}

/// The frame that a line says, if it is `frame`, the digits of one, and an LF.
#[tactic(auto, unfolding(crate::specs::Reading::frame_said))]
pub fn frame_of(line: &[u8]) -> Option<TurnFrame>
    ensures { result ≡ frame_said line.now }
{
    let digits = digits_of(line)?;
    if digits.len() > LONGEST_LINE {
        return None;
    }
    read_frame(digits)
}

/// The number of the line behind so many frames.
fn number_behind(count: usize) -> u32
    requires { count ≤ MOST_EVIDENCE_FRAMES }
    ensures { result ≡ line_behind count }
{
    count as u32 + 5
}

/// The frame of a line behind so many frames.
#[tactic(auto, unfolding(crate::specs::Reading::frame_at))]
fn frame_behind(count: usize, line: &[u8]) -> Result<TurnFrame, TextFault>
    requires { count ≤ MOST_EVIDENCE_FRAMES }
    ensures said { Says (λ x. x) result (frame_at count line.now) }
    ensures few { IfOk result (λ _. count < MOST_EVIDENCE_FRAMES) }
{
    match frame_of(line) {
        Some(frame) if count < MOST_EVIDENCE_FRAMES => Ok(frame),
        _ => Err(TextFault::At(number_behind(count))),
    }
}

/// Whether the line behind so many frames is `end`. Before any frame none is.
fn is_end(count: usize, line: &[u8]) -> bool
    ensures { result ≡ spec.is_end count line.now }
{
    is_last_line(line) && count != 0
}

/// The frames that lines 5 and on say, up to `end`, the last line.
fn frames_of(alloc: Global, text: &[u8]) -> Result<Vec<TurnFrame>, TextFault>
    ensures { Gives is_memory (λ v. v.items) result (frames_at 0 (ended_lines_of text.now)) }
{
    let mut frames = Vec::new(alloc);
    let mut rest = text;
    while !rest.is_empty() {
        let (line, after) = take_line(rest);
        if is_end(frames.len(), line) {
            if after.is_empty() {
                return Ok(frames);
            }
            return Err(TextFault::At(number_behind(frames.len()) + 1));
        }
        let frame = frame_behind(frames.len(), line)?;
        frames.push(frame)?;
        rest = after;
    }
    Err(TextFault::At(number_behind(frames.len())))
}

/// The exhibit of a text, or the first line at fault.
#[tactic(auto, unfolding(crate::specs::Reading::exhibit_at, crate::specs::Reading::said_by))]
fn exhibit_of(alloc: Global, text: &[u8]) -> Result<Exhibit, TextFault>
    ensures { Gives is_memory (λ x. x) result (exhibit_at text.now) }
{
    let (head, rest) = read_head(1, text)?;
    let frames = frames_of(alloc, rest)?;
    Ok(Exhibit {
        player: head.player,
        turn: head.turn,
        kind: head.kind,
        frames: FrameList::new(frames),
    })
}

/// Reads an exhibit from its text: `evidence 1`, the player's number, the turn's, the kind, a line for each frame, and `end`.
///
/// `At` names the first line that is not in this grammar: one of another form, a player above `GREATEST_PLAYER`, a turn of 2^32 or
/// more, `end` before any frame, the frame behind `MOST_EVIDENCE_FRAMES`, a line that is missing or stands behind `end`. `Memory` comes only where memory
/// runs out. Whether the frames show anything is not asked here, but by `judge`.
pub fn read_exhibit(alloc: Global, text: &[u8]) -> Result<Exhibit, TextFault>
    // What is read has this text and no other.
    ensures found { IfOk result (λ x. IsReadFrom x text.now) }
    // Each text of an exhibit is read as that exhibit, unless memory runs out.
    ensures only { (x : Exhibit) → IsReadFrom x text.now → IsRead Memory x result }
    // Which line is at fault.
    ensures exact { Faults is_memory result (exhibit_fault text.now) }
    // All of it once more, as the text is read line by line.
    ensures said { Gives is_memory (λ x. x) result (exhibit_at text.now) }
{
    exhibit_of(alloc, text)
}
