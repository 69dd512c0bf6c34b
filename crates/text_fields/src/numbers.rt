//! Numbers in a line.

ghost use Rattle.std.specs.Prelude.{◌≡◌, ◌≤◌, option_map, length, IfSome};
ghost use Rattle.text_fields.specs.Numbers as N;

use byte_fields::take_number;

/// The number that the whole text is, in its one form with no 0 in front, where it is at most the limit. None comes exactly
/// where the text is no such number.
#[tactic(auto, unfolding(crate::specs::Numbers::number_of))]
pub fn read_number(limit: u32, text: &[u8]) -> Option<u32>
    ensures value { result ≡ N.number_of limit text.now }
    ensures few { IfSome result (λ n. n ≤ limit) }
{
    let number = take_number(text, 0)?;
    if number.value <= limit && number.end == text.len() {
        Some(number.value)
    } else {
        None
    }
}

/// A number up to the limit at the front of the text with a space behind it, and what stands behind that. None comes exactly
/// where no such number stands there.
#[tactic(auto, unfolding(crate::specs::Numbers::number_then))]
pub fn number_then(limit: u32, text: &[u8]) -> Option<(u32, &[u8])>
    ensures value { option_map (λ n. (n.0, n.1.now)) result ≡ N.number_then limit text.now }
    ensures few { IfSome result (λ n. n.0 ≤ limit) }
    ensures short { IfSome result (λ n. length n.1.now ≤ length text.now) }
{
    let number = take_number(text, 0)?;
    let end = number.end;
    if number.value <= limit && end < text.len() && text[end] == b' ' {
        Some((number.value, &text[end + 1..]))
    } else {
        None
    }
}
