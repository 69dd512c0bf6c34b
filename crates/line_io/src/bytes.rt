//! Bytes from a source, one by one, through a buffer.

ghost use Rattle.std.specs.Prelude.{◌≡◌, ◌<◌, ◌∷◌, [], length};
ghost use Rattle.line_io.specs.Readings.{ReadsByte};

use station::{Pull, Source};
use std::marker::Model;

/// How many bytes are asked for at a time.
const CHUNK: usize = 1_024;

/// What a reader of bytes answers.
#[derive(Clone, Copy, Debug, PartialEq, Eq)]
pub enum NextByte {
    /// The next byte.
    Byte(u8),
    /// No byte is left.
    End,
    /// The source failed. Nothing was lost, and the reader may be called again.
    Failed,
}

/// Holds the bytes that were taken from a source and not yet given, at most `CHUNK`. It is used with one source.
#[derive(Drop)]
pub struct ByteReader {
    chunk: [u8; CHUNK],
    from: usize,
    until: usize,
}

impl Model for ByteReader {
    ghost use Rattle.std.specs.Prelude.{◌-◌, ◌≤◌, List, ℕ, take, drop};
    ghost use Rattle.line_io.specs.declared.bytes.TheConstants.{CHUNK};

    ghost Value = { List ℕ };

    ghost view = { λ r. drop r.from (take r.until r.chunk) };

    ghost invariant = { λ r. (r.from ≤ r.until) × (r.until ≤ CHUNK) };
}

impl ByteReader {
    /// Holds nothing yet.
    pub fn new() -> ByteReader
        ensures { result ≡ [] }
    {
        ByteReader {
            chunk: [0; CHUNK],
            from: 0,
            until: 0,
        }
    }

    /// The next byte of those held and of those that the source has left.
    pub fn next<I: Source>(&mut self, input: &mut I) -> NextByte
        ensures { ReadsByte (I.state input.old) (I.state input.new) self.old self.new result }
    {
        if self.from < self.until {
            return NextByte::Byte(self.give());
        }
        match input.read(&mut self.chunk) {
            Pull::Failed => NextByte::Failed,
            Pull::Ended => NextByte::End,
            Pull::Took(count) => {
                self.from = 0;
                self.until = count;
                NextByte::Byte(self.give())
            }
        }
    }

    /// The first byte of those held.
    fn give(&mut self) -> u8
        requires { 0 < length self.old }
        ensures { self.old ≡ result ∷ self.new }
    {
        let byte = self.chunk[self.from];
        self.from += 1;
        byte
    }
}
