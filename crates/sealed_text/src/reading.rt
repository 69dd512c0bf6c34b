//! A sealed exhibit is read from its text.

ghost use Rattle.std.specs.Prelude.{◌≡◌, ◌<◌, ◌≤◌, ◌+◌, ℕ, List, Some, None, length, option_map, if◌then◌else◌, IfOk};
ghost use Rattle.std.specs.List.{list_all};
ghost use Rattle.text_lines.specs.Lines.{ended_lines_of};
ghost use Rattle.text_lines.specs.Answers.{Faults, Gives, IsRead, Says};
ghost use Rattle.text_fields.specs.declared.fault.TextFault.TheVariants.{Memory};
ghost use Rattle.text_fields.specs.Faults.{is_memory};
ghost use Rattle.text_fields.specs.Hexes as H;
ghost use Rattle.evidence.specs.Reading as E;
ghost use Rattle.seal_keys.specs.Seals.{seal_len};
ghost use Rattle.sealed_evidence.specs.declared.sealed.SealedExhibit.{SealedExhibit};
ghost use Rattle.sealed_text.specs.declared.limits.TheConstants.{MOST_SEALED_FRAMES};
ghost use Rattle.sealed_text.specs.Reading.{digits_said, frame_at, line_after, pairs_at, seal_at, seal_of, seal_said, sealed_at, sealed_fault};
ghost use Rattle.sealed_text.specs.Answers.{IsReadFrom};

use crate::limits::MOST_SEALED_FRAMES;
use definitions::TurnFrame;
use evidence::{Exhibit, FrameList, frame_of, read_head};
use grid_world::Session;
use hex::decode_to_slice;
use seal_keys::Seal;
use sealed_evidence::{SealList, SealedExhibit};
use std::alloc::Global;
use text_fields::TextFault;
use text_lines::{is_last_line, take_line};

/// Whether it is a lower-case digit.
fn is_lower_digit(byte: u8) -> bool
    ensures { result ≡ H.is_lower_digit byte }
{
    matches!(byte, b'0'..=b'9' | b'a'..=b'f')
}

/// Whether all bytes are lower-case digits.
fn is_lower(text: &[u8]) -> bool
    ensures { result ≡ list_all H.is_lower_digit text.now }
{
    text.iter().all(|byte| is_lower_digit(*byte))
}

/// Whether the text is lower-case digits that spell as many bytes as the room has. If so, the room
/// has these bytes then.
fn decode_seal(text: &[u8], room: &mut [u8]) -> bool
    ensures said { seal_of (length room.old) text.now ≡ (if result then Some room.new else None) }
    ensures room { length room.new ≡ length room.old }
{
    if text.len() != 2 * room.len() || !is_lower(text) {
        return false;
    }
    decode_to_slice(text, room).is_ok()
}

/// The digits of a seal's line.
fn digits_of(line: &[u8]) -> Option<&[u8]>
    ensures { option_map (λ d. d.now) result ≡ digits_said line.now }
{
    line.strip_prefix(b"seal ")?.strip_suffix(b"\n")
}

/// Whether the line says a seal of as many bytes as the room has. If so, the room has it then.
#[tactic(auto, unfolding(crate::specs::Reading::seal_said))]
fn seal_in(line: &[u8], room: &mut [u8]) -> bool
    ensures said { seal_said (length room.old) line.now ≡ (if result then Some room.new else None) }
    ensures room { length room.new ≡ length room.old }
{
    match digits_of(line) {
        None => false,
        Some(digits) => decode_seal(digits, room),
    }
}

/// The number of the line after so many frames and their seals.
fn number_after(count: usize) -> u32
    requires { count ≤ MOST_SEALED_FRAMES }
    ensures { result ≡ line_after count }
{
    2 * count as u32 + 5
}

/// The frame of the line after so many frames and their seals.
#[tactic(auto, unfolding(crate::specs::Reading::frame_at))]
fn frame_after(count: usize, line: &[u8]) -> Result<TurnFrame, TextFault>
    requires { count ≤ MOST_SEALED_FRAMES }
    ensures said { Says (λ x. x) result (frame_at count line.now) }
    ensures few { IfOk result (λ _. count < MOST_SEALED_FRAMES) }
{
    match frame_of(line) {
        Some(frame) if count < MOST_SEALED_FRAMES => Ok(frame),
        _ => Err(TextFault::At(number_after(count))),
    }
}

/// The seal of the frame after so many, which the next line says, and the text that follows the
/// line. The room is for the bytes of a seal.
fn next_seal<'a>(
    alloc: Global,
    session: &Session,
    count: usize,
    text: &'a [u8],
    room: &mut [u8],
) -> Result<(Seal, &'a [u8]), TextFault>
    requires few { count < MOST_SEALED_FRAMES }
    requires room { length room.old ≡ seal_len session.now }
    ensures said { Gives is_memory (λ x. (x.0, ended_lines_of x.1.now)) result (seal_at (seal_len session.now) count (ended_lines_of text.now)) }
    ensures room { length room.new ≡ length room.old }
    ensures short { IfOk result (λ x. length x.1.now ≤ length text.now) }
{
    let (line, rest) = take_line(text);
    if !seal_in(line, room) {
        return Err(TextFault::At(number_after(count) + 1));
    }
    let mut seal = Seal::new(alloc, session)?;
    seal.set(room);
    Ok((seal, rest))
}

/// Whether the line after so many frames and their seals is `end`. Before any frame none is.
fn is_end(count: usize, line: &[u8]) -> bool
    ensures { result ≡ E.is_end count line.now }
{
    is_last_line(line) && count != 0
}

/// The frames that lines 5, 7, 9 and so on say, and the seal of each on the line after its own, up
/// to `end`, the last line. The room is for the bytes of a seal.
fn pairs_in(
    alloc: Global,
    session: &Session,
    text: &[u8],
    room: &mut [u8],
) -> Result<(Vec<TurnFrame>, Vec<Seal>), TextFault>
    requires { length room.old ≡ seal_len session.now }
    ensures { Gives is_memory (λ x. (x.0.items, x.1.items)) result (pairs_at (seal_len session.now) 0 (ended_lines_of text.now)) }
{
    let mut frames = Vec::new(alloc);
    let mut seals = Vec::new(alloc);
    let mut rest = text;
    while !rest.is_empty() {
        let (line, after) = take_line(rest);
        if is_end(frames.len(), line) {
            if after.is_empty() {
                return Ok((frames, seals));
            }
            return Err(TextFault::At(number_after(frames.len()) + 1));
        }
        let frame = frame_after(frames.len(), line)?;
        let (seal, after) = next_seal(alloc, session, frames.len(), after, room)?;
        frames.push(frame)?;
        seals.push(seal)?;
        rest = after;
    }
    Err(TextFault::At(number_after(frames.len())))
}

/// The frames and their seals. Room for the bytes of a seal is made once for all of them.
fn pairs_of(
    alloc: Global,
    session: &Session,
    text: &[u8],
) -> Result<(Vec<TurnFrame>, Vec<Seal>), TextFault>
    ensures { Gives is_memory (λ x. (x.0.items, x.1.items)) result (pairs_at (seal_len session.now) 0 (ended_lines_of text.now)) }
{
    let len = Seal::new(alloc, session)?.bytes().len();
    let mut room = vec![in alloc; 0; len]?;
    pairs_in(alloc, session, text, &mut room)
}

/// The sealed exhibit of a text, or the first line at fault.
#[tactic(auto, unfolding(crate::specs::Reading::said_by))]
fn sealed_of(alloc: Global, text: &[u8], session: &Session) -> Result<SealedExhibit, TextFault>
    ensures { Gives is_memory (λ x. x) result (sealed_at session.now text.now) }
{
    let (head, rest) = read_head(2, text)?;
    let (frames, seals) = pairs_of(alloc, session, rest)?;
    let exhibit = Exhibit {
        player: head.player,
        turn: head.turn,
        kind: head.kind,
        frames: FrameList::new(frames),
    };
    Ok(SealedExhibit {
        exhibit,
        seals: SealList::new(seals),
    })
}

/// Reads a sealed exhibit from its text: `evidence 2`, the player's number, the turn's, the kind, a
/// line `frame HEX` for each frame with a line `seal HEX` right after it, and `end`.
///
/// `At` names the first line, counted from 1, that is not in this grammar:
///
/// - a line of another form, a player above `GREATEST_PLAYER`, or a turn of 2^32 or more;
/// - `end` before any frame, or the frame after `MOST_SEALED_FRAMES`;
/// - a seal's line with a capital digit, or with more or fewer digits than spell a seal of the
///   session;
/// - a line that follows `end`, or a line that is missing, which has the number it would have.
///
/// `Memory` comes only where memory runs out. Whether the frames show anything, and whether the
/// seals are valid, is not asked here, but by `judge_sealed`.
pub fn read_sealed(
    alloc: Global,
    text: &[u8],
    session: &Session,
) -> Result<SealedExhibit, TextFault>
    // What is read has this text and no other, and seals as long as those of the session.
    ensures found { IfOk result (λ x. IsReadFrom session.now x text.now) }
    // Each text of such an exhibit is read as it, unless memory runs out.
    ensures only { (x : SealedExhibit) → IsReadFrom session.now x text.now → IsRead Memory x result }
    // Which line is at fault.
    ensures exact { Faults is_memory result (sealed_fault session.now text.now) }
    // All of it once more, as the text is read line by line.
    ensures said { Gives is_memory (λ x. x) result (sealed_at session.now text.now) }
{
    sealed_of(alloc, text, session)
}
