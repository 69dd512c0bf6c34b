//! What a line of a script says.

ghost use Rattle.std.specs.Prelude.{◌≡◌, ◌≤◌, ℕ, length, IfSome};
ghost use Rattle.drive_command.specs.Grammar as G;

use definitions::limits::{GREATEST_PLAYER, LONGEST_LINE};
use definitions::{Move, Nonce, PlayerId, TurnFrame};
use text_fields::{Piece, move_then_nonce, number_then, read_frame, read_piece};

/// What a line of a script says.
#[derive(Drop)]
pub enum DriveLine {
    /// Nothing: it is empty or a comment, and is passed over.
    Nothing,
    /// The peer's player chooses this move, with this nonce.
    Choose(Move, Nonce),
    /// This frame comes from this player.
    Got(PlayerId, TurnFrame),
    /// These bytes come from this player, behind those that came from it before.
    Bytes(PlayerId, Piece),
    /// The log is to be printed.
    Log,
    /// The own score is to be printed.
    Score,
    /// It is not in the grammar.
    Bad,
}

/// A choice.
#[tactic(auto, unfolding(crate::specs::Grammar::choose_of, crate::specs::Grammar::chosen_of))]
fn read_choose(line: &[u8]) -> Option<DriveLine>
    ensures value { result ≡ G.choose_of line.now }
    ensures few { (last : ℕ) → IfSome result (G.IsFew last) }
{
    let text = line.strip_prefix(b"choose ")?;
    let (mv, nonce) = move_then_nonce(text)?;
    Some(DriveLine::Choose(mv, nonce))
}

/// A frame and the player from whom it comes.
#[tactic(auto, unfolding(crate::specs::Grammar::got_of))]
fn read_received(text: &[u8]) -> Option<DriveLine>
    requires { length text.now ≤ LONGEST_LINE }
    ensures value { result ≡ G.got_of text.now }
    ensures few { (last : ℕ) → IfSome result (G.IsFew last) }
{
    let (from, rest) = number_then(GREATEST_PLAYER.into(), text)?;
    let frame = read_frame(rest)?;
    Some(DriveLine::Got(from as u8, frame))
}

/// A frame that comes.
#[tactic(auto, unfolding(crate::specs::Grammar::frame_from))]
fn read_got(line: &[u8]) -> Option<DriveLine>
    requires { length line.now ≤ LONGEST_LINE }
    ensures value { result ≡ G.frame_from line.now }
    ensures few { (last : ℕ) → IfSome result (G.IsFew last) }
{
    read_received(line.strip_prefix(b"got ")?)
}

/// Bytes and the player from whom they come, up to the last that is named.
#[tactic(auto, unfolding(crate::specs::Grammar::piece_of))]
fn read_pieces(last: PlayerId, text: &[u8]) -> Option<DriveLine>
    requires { length text.now ≤ LONGEST_LINE }
    ensures value { result ≡ G.piece_of last text.now }
    ensures few { IfSome result (G.IsFew last) }
{
    let (from, rest) = number_then(last.into(), text)?;
    let piece = read_piece(rest)?;
    Some(DriveLine::Bytes(from as u8, piece))
}

/// Bytes that come.
#[tactic(auto, unfolding(crate::specs::Grammar::bytes_from))]
fn read_bytes(last: PlayerId, line: &[u8]) -> Option<DriveLine>
    requires { length line.now ≤ LONGEST_LINE }
    ensures value { result ≡ G.bytes_from last line.now }
    ensures few { IfSome result (G.IsFew last) }
{
    read_pieces(last, line.strip_prefix(b"bytes ")?)
}

/// What comes from a player, a frame or bytes.
#[tactic(auto, unfolding(crate::specs::Grammar::coming_of))]
fn read_coming(last: PlayerId, line: &[u8]) -> Option<DriveLine>
    requires { length line.now ≤ LONGEST_LINE }
    ensures value { result ≡ G.coming_of last line.now }
    ensures few { IfSome result (G.IsFew last) }
{
    match read_got(line) {
        Some(got) => Some(got),
        None => read_bytes(last, line),
    }
}

/// What a line says that is neither empty nor a comment.
#[tactic(auto, unfolding(crate::specs::Grammar::word_line))]
fn read_words(last: PlayerId, line: &[u8]) -> Option<DriveLine>
    requires { length line.now ≤ LONGEST_LINE }
    ensures value { result ≡ G.word_line last line.now }
    ensures few { IfSome result (G.IsFew last) }
{
    if line == b"log".as_slice() {
        return Some(DriveLine::Log);
    }
    if line == b"score".as_slice() {
        return Some(DriveLine::Score);
    }
    match read_choose(line) {
        Some(choose) => Some(choose),
        None => read_coming(last, line),
    }
}

/// What the line says, which has at most `LONGEST_LINE` bytes. Bytes may come from players up to the last one.
#[tactic(auto, unfolding(crate::specs::Grammar::line_of))]
pub fn read_line(last: PlayerId, line: &[u8]) -> DriveLine
    requires { length line.now ≤ LONGEST_LINE }
    ensures value { result ≡ G.line_of last line.now }
    ensures few { G.IsFew last result }
{
    if line.is_empty() || line[0] == b'#' {
        return DriveLine::Nothing;
    }
    read_words(last, line).unwrap_or(DriveLine::Bad)
}
