//! Lines of a word and numbers.

use itoa::Buffer;
use std::alloc::AllocError;

/// Adds numbers, each behind a blank.
pub fn put_numbers(text: &mut String, numbers: &[u32]) -> Result<(), AllocError> {
    for number in numbers {
        text.push_str(" ")?;
        text.push_str(Buffer::new().format(*number))?;
    }
    Ok(())
}

/// Adds a line of a word and numbers.
pub fn put_line(text: &mut String, word: &str, numbers: &[u32]) -> Result<(), AllocError> {
    text.push_str(word)?;
    put_numbers(text, numbers)?;
    text.push_str("\n")
}
