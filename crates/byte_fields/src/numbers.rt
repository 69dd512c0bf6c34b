//! Decimal numbers in their one form.

ghost use Rattle.std.specs.Prelude.{◌≡◌, ◌≤◌, length, IfSome, IfNone};
ghost use Rattle.byte_fields.specs.Numbers as spec;
ghost use Rattle.byte_fields.specs.Numbers.{value_within, number_within};
ghost use Rattle.byte_fields.specs.Standing.{number_at, StandsAt};
ghost use Rattle.byte_fields.specs.declared.numbers.Number.{Number};

use crate::fields::behind;

/// A number that stands in a text, and the place behind its last digit.
#[derive(Clone, Copy, Debug, PartialEq, Eq)]
pub struct Number {
    pub value: u32,
    pub end: usize,
}

/// How many digits stand at the front of the text.
fn digits_len(text: &[u8]) -> usize
    ensures value { result ≡ spec.digits_len text.now }
    ensures within { result ≤ length text.now }
{
    for (i, b) in text.iter().enumerate() {
        if !b.is_ascii_digit() {
            return i;
        }
    }
    text.len()
}

/// The number that the digits spell, if it is at most `most`.
fn read_value(digits: &[u8], most: u64) -> Option<u64>
    ensures value { result ≡ value_within most 0 digits.now }
    ensures within { IfSome result (λ n. n ≤ most) }
{
    let mut value = 0u64;
    for digit in digits {
        if !digit.is_ascii_digit() {
            return None;
        }
        let next = u128::from(value) * 10 + u128::from(*digit - b'0');
        if next > u128::from(most) {
            return None;
        }
        value = next as u64;
    }
    Some(value)
}

/// The canonical number that all these bytes are: `0`, or a digit from 1 to 9 and further digits, of a value that is at
/// most `most`. None comes exactly where they are no such number: no bytes, a byte that is no digit, a 0 in front of
/// other digits, or a greater value.
pub fn read_number(digits: &[u8], most: u64) -> Option<u64>
    ensures value { result ≡ number_within most digits.now }
    ensures within { IfSome result (λ n. n ≤ most) }
{
    match digits {
        [] => None,
        [b'0'] => Some(0),
        [b'0', ..] => None,
        _ => read_value(digits, most),
    }
}

/// The number at this place.
fn read_at(text: &[u8], at: usize) -> Option<Number>
    ensures { result ≡ number_at text.now at }
{
    let rest = behind(text, at);
    let len = digits_len(rest);
    let value = read_number(&rest[..len], u64::from(u32::MAX))?;
    Some(Number {
        value: value as u32,
        end: at + len,
    })
}

/// The canonical number that begins at this place: `0`, or a digit from 1 to 9 and further digits, of a value below 2 to
/// the power of 32, with no digit behind them. None comes exactly where no such number stands there.
pub fn take_number(text: &[u8], at: usize) -> Option<Number>
    ensures found { IfSome result (λ n. StandsAt text.now at n) }
    ensures none { IfNone result ((n : Number) → StandsAt text.now at n → ⊥) }
    ensures exact { result ≡ number_at text.now at }
{
    read_at(text, at)
}
