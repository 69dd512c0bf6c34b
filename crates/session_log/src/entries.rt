//! An entry's text, written and read.

ghost use Rattle.std.specs.Prelude.{◌≡◌, ◌+◌, ◌≤◌, ◌<◌, ◌++◌, length, take, IfSome, IfNone};
ghost use Rattle.session_log.specs.Spelling.{entry_text, FitsEntry};
ghost use Rattle.session_log.specs.Entries as E;

use crate::bodies::{kind_of, spell_body};
use byte_fields::{put_slice, take_u16};
use commitment::whole_turn;
use definitions::{Cell, Entry, Move, Nonce, TurnFrame};

/// Room for an entry that is read. What it holds before says nothing.
pub const NO_ENTRY: Entry = Entry::Chose {
    turn: 0,
    mv: Move {
        to: Cell { x: 0, y: 0 },
        strike: None,
    },
    nonce: Nonce { bytes: [0; 32] },
};

/// Writes the bytes behind those before this place, and gives the place behind them.
pub(crate) fn put_behind(out: &mut [u8; 96], at: usize, from: &[u8]) -> usize
    requires { at + length from.now ≤ 96 }
    ensures bytes { take result out.new ≡ take at out.old ++ from.now }
    ensures count { result ≡ at + length from.now }
{
    put_slice(out, at, from);
    at + from.len()
}

/// Writes an entry's text behind the bytes before this place, and gives the place behind it.
#[tactic(auto, unfolding(crate::specs::Spelling::entry_text))]
pub(crate) fn put_text(entry: &Entry, out: &mut [u8; 96], at: usize) -> usize
    requires { at ≤ 1 }
    ensures bytes { take result out.new ≡ take at out.old ++ entry_text entry.now }
    ensures count { result ≡ at + length (entry_text entry.now) }
    ensures few { result ≤ 54 }
{
    let mut body = [0; 64];
    let count = spell_body(entry, &mut body);
    let at = put_behind(out, at, &(count as u16).to_be_bytes());
    let at = put_behind(out, at, &[kind_of(entry)]);
    put_behind(out, at, &body[..count])
}

/// The choice that a body says.
#[tactic(auto, unfolding(crate::specs::Entries::chose_of))]
fn chose_of(body: &[u8]) -> Option<Entry>
    ensures { result ≡ E.chose_of body.now }
{
    if body.len() > 60 {
        return None;
    }
    let mut frame = [0; 64];
    frame[0] = 3;
    frame[2] = body.len() as u8 + 1;
    put_slice(&mut frame, 4, body);
    match whole_turn(&frame[..body.len() + 4]) {
        Some(
            TurnFrame::Reveal {
                turn,
                mv,
                nonce,
                ..
            },
        ) => Some(Entry::Chose { turn, mv, nonce }),
        _ => None,
    }
}

/// Reads the choice that a body says.
fn read_chose(body: &[u8], out: &mut Entry) -> bool
    ensures { E.chose_of body.now ≡ E.read_as result out.new }
{
    match chose_of(body) {
        None => false,
        Some(entry) => {
            *out = entry;
            true
        }
    }
}

/// Reads the frame made that a body says.
#[inline(always)]
fn read_made(body: &[u8], out: &mut Entry) -> bool
    ensures { E.made_of body.now ≡ E.read_as result out.new }
{
    match whole_turn(body) {
        None => false,
        Some(frame) => {
            *out = Entry::Made(frame);
            true
        }
    }
}

/// Reads the frame that was got, and its sender, that a body says.
#[inline(always)]
fn read_got(body: &[u8], out: &mut Entry) -> bool
    ensures { E.got_of body.now ≡ E.read_as result out.new }
{
    match body {
        [] => false,
        [from, frame @ ..] => match whole_turn(frame) {
            None => false,
            Some(frame) => {
                *out = Entry::Got(*from, frame);
                true
            }
        },
    }
}

/// Reads the entry of this kind that a body says.
#[inline(always)]
fn read_by(kind: u8, body: &[u8], out: &mut Entry) -> bool
    ensures { E.entry_by kind body.now ≡ E.read_as result out.new }
{
    match kind {
        1 => read_chose(body, out),
        2 => read_made(body, out),
        3 => read_got(body, out),
        _ => false,
    }
}

/// How many bytes the body has, by the first two bytes.
pub(crate) fn told_len(bytes: &[u8]) -> usize
    requires { 2 ≤ length bytes.now }
    ensures told { result ≡ E.told_len bytes.now }
    ensures few { result < 65536 }
{
    usize::from(u16::from_be_bytes([bytes[0], bytes[1]]))
}

/// Reads the entry that a text spells to `out`, and says whether it spells one: else `out` says nothing. An entry is copied by
/// each call that gives one, and copies of what was just written wait for it; so it is read to where it is needed.
#[tactic(auto, unfolding(crate::specs::Entries::entry_of))]
#[inline(always)]
pub(crate) fn read_into(text: &[u8], out: &mut Entry) -> bool
    ensures { E.entry_of text.now ≡ E.read_as result out.new }
{
    if text.len() < 3 {
        return false;
    }
    if text.len() != told_len(text) + 3 {
        return false;
    }
    read_by(text[2], &text[3..], out)
}

/// The entry that a text spells: the length of its body, its kind and its body, with nothing behind them and without the
/// digest. None comes exactly where it is the text of no entry. Whether the session has such a turn or player, and whether
/// the log's owner may have such an entry, is not asked here.
pub fn read_entry(text: &[u8]) -> Option<Entry>
    ensures exact { result ≡ E.entry_of text.now }
    ensures found { IfSome result (λ e. entry_text e ≡ text.now) }
    ensures none { IfNone result ((e : Entry) → FitsEntry e → text.now ≡ entry_text e → ⊥) }
{
    let mut entry = NO_ENTRY;
    if read_into(text, &mut entry) {
        Some(entry)
    } else {
        None
    }
}
