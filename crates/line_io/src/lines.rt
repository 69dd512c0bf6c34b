//! Lines from a source.

ghost use Rattle.std.specs.Prelude.{◌≡◌, ◌≤◌, [], length};
ghost use Rattle.line_io.specs.Readings.{ReadsLine};

use crate::bytes::{ByteReader, NextByte};
use arrayvec::ArrayVec;
use definitions::limits::LONGEST_LINE;
use station::Source;
use std::marker::Model;

/// What a reader of lines answers.
#[derive(Clone, Copy, Debug, PartialEq, Eq)]
pub enum NextLine {
    /// There is a line, which `LineReader::line` gives, and it has an LF.
    Line,
    /// There is a line, which `LineReader::line` gives, and it is the last: the source ended in it.
    Last,
    /// The next line has more than `LONGEST_LINE` bytes without its LF. The reader stands within that line then,
    /// and nothing is said of what it reads next.
    TooLong,
    /// No byte is left.
    End,
    /// The source failed. What was read of the line, which has no LF, is what `LineReader::line` gives.
    Failed,
}

/// Gives the lines of a source, each without its LF, which the last line may lack. It is used with one source, and is not
/// called again once it answered that the source ended.
#[derive(Drop)]
pub struct LineReader {
    bytes: ByteReader,
    line: ArrayVec<u8, LONGEST_LINE>,
}

impl Model for LineReader {
    ghost use Rattle.line_io.specs.Reader.{Reader};

    ghost Value = { Reader };

    ghost view = { λ r. record { line = r.line.items; pending = r.bytes } };
}

impl LineReader {
    /// Has read nothing yet.
    pub fn new() -> LineReader
        ensures { result ≡ record { line = []; pending = [] } }
    {
        LineReader {
            bytes: ByteReader::new(),
            line: ArrayVec::new(),
        }
    }

    /// The line that the last call of `next` read, at most `LONGEST_LINE` bytes.
    pub fn line(&self) -> &[u8]
        ensures line { result.now ≡ self.now.line }
        ensures short { length result.now ≤ LONGEST_LINE }
    {
        self.line.as_slice()
    }

    /// Reads the next line of the bytes held and of those that the source has left.
    pub fn next<I: Source>(&mut self, input: &mut I) -> NextLine
        ensures { ReadsLine (I.state input.old) (I.state input.new) self.old.pending self.new result }
    {
        take_line(&mut self.bytes, &mut self.line, input)
    }
}

/// Takes bytes into the line until its LF or the end.
fn take_line<I: Source>(
    bytes: &mut ByteReader,
    line: &mut ArrayVec<u8, LONGEST_LINE>,
    input: &mut I,
) -> NextLine
    ensures { ReadsLine (I.state input.old) (I.state input.new) bytes.old (record { line = line.new.items; pending = bytes.new }) result }
{
    line.clear();
    'bytes: loop {
        match bytes.next(input) {
            NextByte::Failed => return NextLine::Failed,
            NextByte::End => {
                return if line.is_empty() {
                    NextLine::End
                } else {
                    NextLine::Last
                };
            }
            NextByte::Byte(byte) => {
                if byte == b'\n' {
                    return NextLine::Line;
                }
                if line.is_full() {
                    return NextLine::TooLong;
                }
                line.push(byte);
            }
        }
    }
}
