//! Nonces, frames and bytes as hexadecimal text.

ghost use Rattle.std.specs.Prelude.{◌≡◌, ◌≤◌, length, IfSome};
ghost use Rattle.std.specs.List.{list_all};
ghost use Rattle.text_fields.specs.Hexes as H;

use crate::pieces::Piece;
use commitment::whole_turn;
use definitions::limits::{LONGEST_LINE, LONGEST_PIECE};
use definitions::{Nonce, TurnFrame};
use hex::decode_to_slice;

/// Whether it is a lower-case digit.
fn is_lower_digit(byte: u8) -> bool
    ensures { result ≡ H.is_lower_digit byte }
{
    matches!(byte, b'0'..=b'9' | b'a'..=b'f')
}

/// Whether all bytes are lower-case digits.
fn is_lower(text: &[u8]) -> bool
    ensures { result ≡ list_all H.is_lower_digit text.now }
{
    text.iter().all(|byte| is_lower_digit(*byte))
}

/// The nonce that 64 lower-case digits spell. None comes exactly where the text is no such digits.
pub fn read_nonce(text: &[u8]) -> Option<Nonce>
    ensures { result ≡ H.nonce_of text.now }
{
    if !is_lower(text) {
        return None;
    }
    let mut bytes = [0; 32];
    match decode_to_slice(text, &mut bytes) {
        Ok(()) => Some(Nonce { bytes }),
        Err(_) => None,
    }
}

/// The commitment or reveal whose whole spelling the lower-case digits are. None comes exactly where the text is no such
/// digits.
pub fn read_frame(text: &[u8]) -> Option<TurnFrame>
    requires { length text.now ≤ LONGEST_LINE }
    ensures { result ≡ H.frame_of text.now }
{
    if !is_lower(text) {
        return None;
    }
    let mut buffer = [0; LONGEST_PIECE];
    let bytes = &mut buffer[..text.len() / 2];
    match decode_to_slice(text, bytes) {
        Ok(()) => whole_turn(bytes),
        Err(_) => None,
    }
}

/// The bytes that the lower-case digits spell, one at least. None comes exactly where the text is no such digits.
pub fn read_piece(text: &[u8]) -> Option<Piece>
    requires { length text.now ≤ LONGEST_LINE }
    ensures value { result ≡ H.bytes_of text.now }
    ensures few { IfSome result (λ p. length p ≤ LONGEST_PIECE) }
{
    if text.is_empty() || !is_lower(text) {
        return None;
    }
    let len = text.len() / 2;
    let mut buffer = [0; LONGEST_PIECE];
    match decode_to_slice(text, &mut buffer[..len]) {
        Ok(()) => Some(Piece::of(buffer, len)),
        Err(_) => None,
    }
}
