//! The lines of a text, and the numbers that they say.

ghost use Rattle.std.specs.Prelude.{◌≡◌, ◌<◌, ◌≤◌, length, take, drop, option_map, codes, IfSome};
ghost use Rattle.text_lines.specs.Lines as lines;
ghost use Rattle.text_lines.specs.Lines.{line_len, is_ended, is_bare};

use byte_fields::take_number;

/// Three numbers of a line, and the two behind them, if there are two more.
pub type Numbers = ((u32, u32, u32), Option<(u32, u32)>);

/// How many bytes the first line has, its LF counted.
fn first_line_len(text: &[u8]) -> usize
    ensures value { result ≡ line_len text.now }
    ensures within { result ≤ length text.now }
    ensures some { 0 < length text.now → 0 < result }
{
    for (i, b) in text.iter().enumerate() {
        if *b == b'\n' {
            return i + 1;
        }
    }
    text.len()
}

/// The first line with its LF, and the text behind it. Only of an empty text the line is empty.
pub fn take_line(text: &[u8]) -> (&[u8], &[u8])
    ensures line { result.0.now ≡ take (line_len text.now) text.now }
    ensures rest { result.1.now ≡ drop (line_len text.now) text.now }
    ensures shorter { 0 < length text.now → length result.1.now < length text.now }
{
    text.split_at(first_line_len(text))
}

/// The number at the front of the text, and the text behind its digits.
fn number_at(text: &[u8]) -> Option<(u32, &[u8])>
    ensures { option_map (λ x. (x.0, x.1.now)) result ≡ lines.number_at text.now }
{
    let number = take_number(text, 0)?;
    Some((number.value, &text[number.end..]))
}

/// The number behind one space at the front of the text, and the text behind its digits.
#[tactic(auto, unfolding(crate::specs::Lines::field_at))]
fn field_at(text: &[u8]) -> Option<(u32, &[u8])>
    ensures { option_map (λ x. (x.0, x.1.now)) result ≡ lines.field_at text.now }
{
    match text {
        [b' ', rest @ ..] => number_at(rest),
        _ => None,
    }
}

/// Whether nothing but the line's end is left.
fn is_at_end(rest: &[u8]) -> bool
    ensures { result ≡ is_ended rest.now }
{
    matches!(rest, [b'\n'])
}

/// Whether it is the line `end`, which has no number: the last one of many a text.
pub fn is_last_line(line: &[u8]) -> bool
    ensures { result ≡ is_bare (codes "end") line.now }
{
    matches!(line, b"end\n")
}

/// The number of a line of this name that has one.
#[tactic(auto, unfolding(crate::specs::Lines::one_of))]
pub fn one_of(name: &[u8], line: &[u8]) -> Option<u32>
    ensures { result ≡ lines.one_of name.now line.now }
{
    let rest = line.strip_prefix(name)?;
    let (a, rest) = field_at(rest)?;
    if is_at_end(rest) { Some(a) } else { None }
}

/// Whether the number is one of those from `low` to `high`.
pub fn is_within(low: u32, high: u32, n: u32) -> bool
    ensures { result ≡ lines.is_within low high n }
{
    low <= n && n <= high
}

/// The number of a line of this name that has one, from `low` to `high`.
pub fn one_within(name: &[u8], low: u32, high: u32, line: &[u8]) -> Option<u32>
    ensures said { result ≡ lines.one_within name.now low high line.now }
    ensures within { IfSome result (λ n. n ≤ high) }
{
    let number = one_of(name, line)?;
    if is_within(low, high, number) {
        Some(number)
    } else {
        None
    }
}

/// The numbers of a line of this name that has two.
#[tactic(auto, unfolding(crate::specs::Lines::two_of))]
pub fn two_of(name: &[u8], line: &[u8]) -> Option<(u32, u32)>
    ensures { result ≡ lines.two_of name.now line.now }
{
    let rest = line.strip_prefix(name)?;
    let (a, rest) = field_at(rest)?;
    let (b, rest) = field_at(rest)?;
    if is_at_end(rest) { Some((a, b)) } else { None }
}

/// The numbers of a line of this name that has three.
#[tactic(auto, unfolding(crate::specs::Lines::three_of))]
pub fn three_of(name: &[u8], line: &[u8]) -> Option<(u32, u32, u32)>
    ensures { result ≡ lines.three_of name.now line.now }
{
    let rest = line.strip_prefix(name)?;
    let (a, rest) = field_at(rest)?;
    let (b, rest) = field_at(rest)?;
    let (c, rest) = field_at(rest)?;
    if is_at_end(rest) {
        Some((a, b, c))
    } else {
        None
    }
}

/// The numbers of a line of this name that has three, and the two behind them, if there are two more.
#[tactic(auto, unfolding(crate::specs::Lines::three_or_five_of))]
pub fn three_or_five_of(name: &[u8], line: &[u8]) -> Option<Numbers>
    ensures { result ≡ lines.three_or_five_of name.now line.now }
{
    let rest = line.strip_prefix(name)?;
    let (a, rest) = field_at(rest)?;
    let (b, rest) = field_at(rest)?;
    let (c, rest) = field_at(rest)?;
    if is_at_end(rest) {
        return Some(((a, b, c), None));
    }
    let (d, rest) = field_at(rest)?;
    let (e, rest) = field_at(rest)?;
    if is_at_end(rest) {
        Some(((a, b, c), Some((d, e))))
    } else {
        None
    }
}
