//! The next line of a text by its form, or the fault that the reader names.

ghost use Rattle.std.specs.Prelude.{◌≡◌, ◌<◌, ◌≤◌, length, IfOk};
ghost use Rattle.text_lines.specs.Lines as words;
ghost use Rattle.text_lines.specs.Lines.{ended_lines_of};
ghost use Rattle.text_lines.specs.Reading.{line_at};
ghost use Rattle.text_lines.specs.Answers.{Says};

use crate::lines::{Numbers, one_of, one_within, take_line, three_of, three_or_five_of, two_of};

/// The number of the next line, which has this name and one number, and the text behind the line.
pub fn one_at<'a, E: Copy>(fault: E, name: &[u8], text: &'a [u8]) -> Result<(u32, &'a [u8]), E>
    requires { 0 < length name.now }
    ensures { Says (λ x. (x.0, ended_lines_of x.1.now)) result (line_at fault (words.one_of name.now) (ended_lines_of text.now)) }
{
    let (line, rest) = take_line(text);
    match one_of(name, line) {
        None => Err(fault),
        Some(number) => Ok((number, rest)),
    }
}

/// The number of the next line, which has this name and one number from `low` to `high`, and the text behind the line.
pub fn one_within_at<'a, E: Copy>(
    fault: E,
    name: &[u8],
    low: u32,
    high: u32,
    text: &'a [u8],
) -> Result<(u32, &'a [u8]), E>
    requires { 0 < length name.now }
    ensures said { Says (λ x. (x.0, ended_lines_of x.1.now)) result (line_at fault (words.one_within name.now low high) (ended_lines_of text.now)) }
    ensures within { IfOk result (λ x. x.0 ≤ high) }
{
    let (line, rest) = take_line(text);
    match one_within(name, low, high, line) {
        None => Err(fault),
        Some(number) => Ok((number, rest)),
    }
}

/// The numbers of the next line, which has this name and two numbers, and the text behind the line.
pub fn two_at<'a, E: Copy>(
    fault: E,
    name: &[u8],
    text: &'a [u8],
) -> Result<((u32, u32), &'a [u8]), E>
    requires { 0 < length name.now }
    ensures { Says (λ x. (x.0, ended_lines_of x.1.now)) result (line_at fault (words.two_of name.now) (ended_lines_of text.now)) }
{
    let (line, rest) = take_line(text);
    match two_of(name, line) {
        None => Err(fault),
        Some(numbers) => Ok((numbers, rest)),
    }
}

/// The numbers of the next line, which has this name and three numbers, and the text behind the line.
pub fn three_at<'a, E: Copy>(
    fault: E,
    name: &[u8],
    text: &'a [u8],
) -> Result<((u32, u32, u32), &'a [u8]), E>
    requires { 0 < length name.now }
    ensures { Says (λ x. (x.0, ended_lines_of x.1.now)) result (line_at fault (words.three_of name.now) (ended_lines_of text.now)) }
{
    let (line, rest) = take_line(text);
    match three_of(name, line) {
        None => Err(fault),
        Some(numbers) => Ok((numbers, rest)),
    }
}

/// The numbers of the next line, which has this name and three or five numbers, and the text behind the line.
pub fn three_or_five_at<'a, E: Copy>(
    fault: E,
    name: &[u8],
    text: &'a [u8],
) -> Result<(Numbers, &'a [u8]), E>
    requires { 0 < length name.now }
    ensures { Says (λ x. (x.0, ended_lines_of x.1.now)) result (line_at fault (words.three_or_five_of name.now) (ended_lines_of text.now)) }
{
    let (line, rest) = take_line(text);
    match three_or_five_of(name, line) {
        None => Err(fault),
        Some(numbers) => Ok((numbers, rest)),
    }
}
