//! Adapters over std's readers and writers.

ghost use Rattle.std.specs.Prelude.{◌≡◌, ◌<◌, None, [], false, length};
ghost use Rattle.station.specs.Adapters.{TakesFrom, GivesTo};
ghost use Rattle.station.specs.Sinks.{GivesWithin, after_push};
ghost use Rattle.station.specs.Sources.{TakesWithin, after_pull};

use crate::notes::ByteNotes;
use crate::sinks::{Push, Sink};
use crate::sources::{Pull, Source};
use std::io::{Read, Write};

/// A reader of std as a source. Each error of the reader is a fault.
#[derive(Drop)]
pub struct StdSource<T> {
    reader: T,
    seen: ByteNotes,
    ended: bool,
    faults: u64,
}

impl<T: Read> StdSource<T> {
    /// Has given nothing yet.
    pub fn new(reader: T) -> StdSource<T>
        ensures { ⟦<StdSource<T> as Source>⟧.state result ≡ record { whole = None; seen = []; ended = false; faults = 0 } }
    {
        StdSource {
            reader,
            seen: ByteNotes::new(),
            ended: false,
            faults: 0,
        }
    }
}

impl<T: Read> Source for StdSource<T> {
    ghost use Rattle.std.specs.Prelude.{None};

    ghost state = { λ s. record { whole = None; seen = s.seen; ended = s.ended; faults = s.faults } };

    fn read(&mut self, buf: &mut [u8]) -> Pull
        requires { 0 < length buf.old }
        ensures within { TakesWithin result buf.new }
        ensures after { ⟦<StdSource<T> as Source>⟧.state self.new ≡ after_pull (⟦<StdSource<T> as Source>⟧.state self.old) result buf.new }

        // What is answered is what the reader lost.
        ensures real { TakesFrom (T.remaining self.old.reader) (T.remaining self.new.reader) result buf.new }
    {
        match self.reader.read(buf) {
            Ok(0) => {
                self.ended = true;
                Pull::Ended
            }
            Ok(count) => {
                self.seen.note(&buf[..count]);
                Pull::Took(count)
            }
            Err(_) => {
                self.faults = self.faults.saturating_add(1);
                Pull::Failed
            }
        }
    }
}

/// A writer of std as a sink. Each error of the writer is a fault, and so is a write that gives no byte.
#[derive(Drop)]
pub struct StdSink<T> {
    writer: T,
    held: ByteNotes,
    faults: u64,
}

impl<T: Write> StdSink<T> {
    /// Has taken nothing yet.
    pub fn new(writer: T) -> StdSink<T>
        ensures { ⟦<StdSink<T> as Sink>⟧.state result ≡ record { held = []; faults = 0 } }
    {
        StdSink {
            writer,
            held: ByteNotes::new(),
            faults: 0,
        }
    }
}

impl<T: Write> Sink for StdSink<T> {
    ghost state = { λ s. record { held = s.held; faults = s.faults } };

    fn write(&mut self, bytes: &[u8]) -> Push
        requires { 0 < length bytes.now }
        ensures within { GivesWithin result bytes.now }
        ensures after { ⟦<StdSink<T> as Sink>⟧.state self.new ≡ after_push (⟦<StdSink<T> as Sink>⟧.state self.old) result bytes.now }

        // What is answered is what the writer gained.
        ensures real { GivesTo (T.contents self.old.writer) (T.contents self.new.writer) result bytes.now }
    {
        match self.writer.write(bytes) {
            Ok(0) | Err(_) => {
                self.faults = self.faults.saturating_add(1);
                Push::Failed
            }
            Ok(count) => {
                self.held.note(&bytes[..count]);
                Push::Gave(count)
            }
        }
    }
}
