//! The evidence that C is given of a finding.

ghost use Rattle.std.specs.Prelude.{◌≡◌, ◌≢◌, ◌≤◌, ◌+◌, [], ◌∷◌, ◌++◌, Some, option_map, pos, take, length};
ghost use Rattle.definition_laws.specs.First.{finding_of_log};
ghost use Rattle.evidence.specs.Text.{exhibit_text, frame_line, kind_line};
ghost use Rattle.text_lines.specs.Lines.{line_of};
ghost use Rattle.lethwyrn_c.specs.Calls as C;
ghost use Rattle.lethwyrn_c.specs.Showing as S;

use crate::codes;
use crate::handle::{Handle, open, shut};
use arrayvec::ArrayVec;
use byte_fields::put_slice;
use commitment::put_turn;
use definitions::{Entry, Finding, Kind, TurnFrame};
use hex::encode_to_slice;
use itoa::Buffer;
use peer_core::Peer;
use std::alloc::Global;
use text_fields::name_of_kind;

/// Room for the text of two frames.
const TEXT_ROOM: usize = 512;

/// The text of an exhibit, or the first lines of it.
type Text = ArrayVec<u8, TEXT_ROOM>;

/// The frame that the entry of this number got, if it got one.
fn frame_at(entries: &[Entry], at: u32) -> Option<TurnFrame>
    ensures { result ≡ S.frame_at entries.now at }
{
    match entries.get(at as usize) {
        Some(Entry::Got(_, frame)) => Some(*frame),
        _ => None,
    }
}

/// Writes the line of this name and this number.
fn put_number(text: &mut Text, name: &[u8], number: u32)
    requires room { length text.old.items + length name.now ≤ 400 }
    ensures line { text.new.items ≡ text.old.items ++ line_of name.now (number ∷ []) }
    ensures few { length text.new.items ≤ length text.old.items + length name.now + 12 }
{
    text.try_extend_from_slice(name).unwrap();
    text.push(b' ');
    text.try_extend_from_slice(Buffer::new().format(number).as_bytes())
        .unwrap();
    text.push(b'\n');
}

/// Writes the line that says what kind it is.
fn put_kind(text: &mut Text, kind: Kind)
    requires room { length text.old.items ≤ 200 }
    ensures line { text.new.items ≡ text.old.items ++ kind_line kind }
    ensures few { length text.new.items ≤ length text.old.items + 17 }
{
    text.try_extend_from_slice(b"kind ").unwrap();
    text.try_extend_from_slice(name_of_kind(kind)).unwrap();
    text.push(b'\n');
}

/// Writes the line of a frame.
fn put_frame(text: &mut Text, frame: &TurnFrame)
    requires room { length text.old.items ≤ 300 }
    ensures line { text.new.items ≡ text.old.items ++ frame_line frame.now }
    ensures few { length text.new.items ≤ length text.old.items + 135 }
{
    let mut bytes = [0; 64];
    let count = put_turn(frame, &mut bytes);
    let mut digits = [0; 128];
    encode_to_slice(&bytes[..count], &mut digits[..2 * count]).unwrap();
    text.try_extend_from_slice(b"frame ").unwrap();
    text.try_extend_from_slice(&digits[..2 * count]).unwrap();
    text.push(b'\n');
}

/// The text of these two frames, which show the finding.
#[tactic(auto, unfolding(evidence::specs::Text::exhibit_text))]
fn text_of(finding: &Finding, first: &TurnFrame, second: &TurnFrame) -> Text
    ensures { result.items ≡ exhibit_text (S.exhibit_of finding.now first.now second.now) }
{
    let mut text = ArrayVec::new();
    put_number(&mut text, b"evidence", 1);
    put_number(&mut text, b"player", finding.player.into());
    put_number(&mut text, b"turn", finding.turn);
    put_kind(&mut text, finding.kind);
    put_frame(&mut text, first);
    put_frame(&mut text, second);
    text.try_extend_from_slice(b"end\n").unwrap();
    text
}

/// The text of the two frames at the finding's entries, if two frames show it.
fn text_if(entries: &[Entry], finding: &Finding) -> Option<Text>
    ensures { option_map (λ text. text.items) result ≡ S.text_of_kind entries.now finding.now finding.now.kind }
{
    if let Kind::Illegal = finding.kind {
        return None;
    }
    let first = frame_at(entries, finding.first.entry)?;
    let second = frame_at(entries, finding.second.entry)?;
    Some(text_of(finding, &first, &second))
}

/// Writes the text to the front of `out`, where there is room for it.
fn put_text(text: &[u8], out: &mut [u8], count: &mut usize) -> i32
    ensures code { result ≡ pos (S.text_code (length out.old) (Some text.now)) }
    ensures put { result ≡ pos 0 → take count.new out.new ≡ text.now }
    ensures none { result ≢ pos 0 → (count.new ≡ count.old) × (out.new ≡ out.old) }
{
    if text.len() > out.len() {
        return codes::NO_ROOM;
    }
    put_slice(out, 0, text);
    *count = text.len();
    codes::OK
}

/// Writes the text of the two frames of the peer's finding, where two frames show it.
fn show(peer: &Peer, out: &mut [u8], count: &mut usize) -> i32
    ensures code { result ≡ pos (S.code_if_found (length out.old) peer.now.entries (finding_of_log peer.now.game peer.now.entries)) }
    ensures shown { result ≡ pos 0 → Some (take count.new out.new) ≡ S.text_if peer.now.entries (finding_of_log peer.now.game peer.now.entries) }
    ensures none { result ≢ pos 0 → (count.new ≡ count.old) × (out.new ≡ out.old) }
{
    let Some(finding) = peer.finding() else {
        return codes::NOTHING;
    };
    match text_if(peer.entries(), &finding) {
        None => codes::WHOLE_LOG,
        Some(text) => put_text(text.as_slice(), out, count),
    }
}

/// Writes the text of the two frames that show the first finding of the log, where two frames show it and there is room for the text.
#[unsafe(no_mangle)]
pub extern "C" fn lethwyrn_evidence(
    alloc: Global,
    handle: &mut Handle,
    out: &mut [u8],
    count: &mut usize,
) -> i32
    ensures code { result ≡ pos (C.code_or (S.evidence_code (length out.old)) handle.old.value) }
    ensures shown { result ≡ pos 0 → C.IsThere (λ s. Some (take count.new out.new) ≡ S.evidence_text s) handle.old.value }
    ensures none { result ≢ pos 0 → (count.new ≡ 0) × (out.new ≡ out.old) }
    ensures same { handle.new.value ≡ handle.old.value }
{
    *count = 0;
    let Some(seat) = open(alloc, handle) else {
        return codes::NO_PEER;
    };
    let code = show(seat.peer(), out, count);
    shut(handle, seat);
    code
}
