//! Lines of a file of cases, and the numbers in them.

use crate::faults::Fault;
use std::str::FromStr;

/// A line: its first word, and what stands behind the space that follows.
#[derive(Clone, Copy)]
pub struct Line<'a> {
    pub word: &'a str,
    pub rest: &'a str,
}

/// The text as a line.
pub fn line_of(text: &str) -> Line<'_> {
    match text.split_once(' ') {
        None => Line {
            word: text,
            rest: "",
        },
        Some((word, rest)) => Line { word, rest },
    }
}

/// The number that the text says.
pub fn number<T: FromStr>(text: &str) -> Result<T, Fault>
where
    T::Err: Drop,
{
    match text.parse::<T>() {
        Ok(number) => Ok(number),
        Err(_) => Err(Fault::Wanted("a number")),
    }
}
