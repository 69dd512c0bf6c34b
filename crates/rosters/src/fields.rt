//! Fields of a roster's lines.

ghost use Rattle.std.specs.Prelude.{◌≡◌, ◌≤◌, [], ◌∷◌, option_map, length, IfSome};
ghost use Rattle.byte_fields.specs.Fronts.{behind};
ghost use Rattle.text_fields.specs.Hexes.{bytes_of};
ghost use Rattle.rosters.specs.Fields as F;

use crate::addr::Addr;
use byte_fields::{take_array, take_number};
use text_fields::read_piece;

/// How many digits a pass has.
const PASS_DIGITS: usize = 32;

/// Whether the byte at this place is the mark.
fn is_marked(mark: u8, place: usize, text: &[u8]) -> bool
    ensures { result ≡ F.is_marked mark place text.now }
{
    place < text.len() && text[place] == mark
}

/// A number up to the limit at the front of the text with the mark behind it, and what stands behind that.
#[tactic(auto, unfolding(crate::specs::Fields::number_then))]
pub(crate) fn number_then(mark: u8, limit: u32, text: &[u8]) -> Option<(u32, &[u8])>
    ensures value { option_map (λ n. (n.0, n.1.now)) result ≡ F.number_then mark limit text.now }
    ensures few { IfSome result (λ n. n.0 ≤ limit) }
{
    let number = take_number(text, 0)?;
    if number.value <= limit && is_marked(mark, number.end, text) {
        Some((number.value, &text[number.end + 1..]))
    } else {
        None
    }
}

/// An address at the front of the text with the mark behind it, and what stands behind that.
#[tactic(auto, unfolding(crate::specs::Fields::addr_then))]
pub(crate) fn addr_then(mark: u8, text: &[u8]) -> Option<(Addr, &[u8])>
    ensures { option_map (λ a. (a.0, a.1.now)) result ≡ F.addr_then mark text.now }
{
    let (a, rest) = number_then(b'.', 255, text)?;
    let (b, rest) = number_then(b'.', 255, rest)?;
    let (c, rest) = number_then(b'.', 255, rest)?;
    let (d, rest) = number_then(b' ', 255, rest)?;
    let (port, rest) = number_then(mark, 65535, rest)?;
    if port == 0 {
        return None;
    }
    let addr = Addr {
        ip: [a as u8, b as u8, c as u8, d as u8],
        port: port as u16,
    };
    Some((addr, rest))
}

/// What stands behind the mark at the front of the text.
fn behind_mark(mark: u8, text: &[u8]) -> Option<&[u8]>
    ensures { option_map (λ r. r.now) result ≡ behind (mark ∷ []) text.now }
{
    text.strip_prefix([mark].as_slice())
}

/// The pass of these digits.
fn pass_of(digits: &[u8]) -> Option<[u8; 16]>
    requires { length digits.now ≡ 32 }
    ensures { result ≡ bytes_of digits.now }
{
    let piece = read_piece(digits)?;
    let pass: [u8; 16] = take_array(piece.as_slice(), 0)?;
    Some(pass)
}

/// A pass at the front of the text with the mark behind it, and what stands behind that.
pub(crate) fn pass_then(mark: u8, text: &[u8]) -> Option<([u8; 16], &[u8])>
    ensures { option_map (λ p. (p.0, p.1.now)) result ≡ F.pass_then mark text.now }
{
    if text.len() < PASS_DIGITS {
        return None;
    }
    let (digits, rest) = text.split_at(PASS_DIGITS);
    let rest = behind_mark(mark, rest)?;
    let pass = pass_of(digits)?;
    Some((pass, rest))
}
