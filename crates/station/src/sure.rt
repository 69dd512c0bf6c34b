//! A source, a sink and a shelf whose calls never fail.

ghost use Rattle.std.specs.Prelude.{◌≡◌, ◌<◌, ◌++◌, ◌∷◌, [], Some, length, drop};
ghost use Rattle.station.specs.Copies.{pull_of};
ghost use Rattle.station.specs.Files.{NamesDiffer, sure_content_in};
ghost use Rattle.station.specs.Pieces.{GivesAt};
ghost use Rattle.station.specs.Plans.{Bytes, bytes_left, bytes_state, files_state};
ghost use Rattle.station.specs.Shelves.{GivesShown, after_piece};
ghost use Rattle.station.specs.Sinks.{GivesWithin};
ghost use Rattle.station.specs.Sources.{TakesWithin, after_pull, pulled};

use crate::copies::copy_at;
use crate::files::{ShelfFile, find};
use crate::notes::{ByteNotes, PieceNotes};
use crate::shelves::Shelf;
use crate::sinks::{Push, Sink};
use crate::sources::{Pull, Source};
use std::marker::Model;

/// Bytes in memory. It never fails.
#[derive(Drop)]
pub struct SureSource {
    bytes: Vec<u8>,
    at: usize,
    ended: bool,
}

impl Model for SureSource {
    ghost use Rattle.std.specs.Prelude.{◌≡◌, take, drop, length, ◌≤◌, true, if◌then◌else◌};
    ghost use Rattle.station.specs.Plans.{HeldBytes, Bytes, Nothing};

    ghost Value = { HeldBytes };

    ghost view = { λ s. record { seen = take s.at s.bytes.items; left = if s.ended then Nothing else Bytes (drop s.at s.bytes.items) } };

    ghost invariant = { λ s. (s.at ≤ length s.bytes.items) × (s.ended ≡ true → length s.bytes.items ≤ s.at) };
}

impl SureSource {
    /// Has these bytes left.
    pub fn new(bytes: Vec<u8>) -> SureSource
        ensures { result ≡ record { seen = []; left = Bytes bytes.items } }
    {
        SureSource {
            bytes,
            at: 0,
            ended: false,
        }
    }
}

impl Source for SureSource {
    ghost use Rattle.station.specs.Plans.{bytes_state};

    ghost state = { bytes_state };

    /// Takes as many bytes as fit, and never fails.
    fn read(&mut self, buf: &mut [u8]) -> Pull
        requires { 0 < length buf.old }
        ensures within { TakesWithin result buf.new }
        ensures after { bytes_state self.new ≡ after_pull (bytes_state self.old) result buf.new }
        ensures answer { result ≡ pull_of (bytes_left self.old.left) (length buf.old) }
    {
        if self.ended {
            return Pull::Ended;
        }
        let pull = copy_at(self.bytes.as_slice(), self.at as u64, buf);
        match pull {
            Pull::Took(count) => self.at += count,
            Pull::Ended => self.ended = true,
            Pull::Failed => {}
        }
        pull
    }
}

/// Drops what it is given, and never fails. It is seen as the bytes that it was given.
#[derive(Drop)]
pub struct SureSink {
    held: ByteNotes,
}

impl Model for SureSink {
    ghost use Rattle.std.specs.Prelude.{List, ℕ};

    ghost Value = { List ℕ };

    ghost view = { λ s. s.held };
}

impl SureSink {
    /// Is ready to drop whatever comes.
    pub fn new() -> SureSink
        ensures { result ≡ [] }
    {
        SureSink {
            held: ByteNotes::new(),
        }
    }
}

impl Sink for SureSink {
    ghost state = { λ s. record { held = s; faults = 0 } };

    /// Drops all of the bytes, and never fails.
    fn write(&mut self, bytes: &[u8]) -> Push
        requires { 0 < length bytes.now }
        ensures answer { result ≡ Push.Gave (length bytes.now) }
        ensures held { self.new ≡ self.old ++ bytes.now }
    {
        self.held.note(bytes);
        Push::Gave(bytes.len())
    }
}

/// Files in memory. It never fails: a name that isn't among them is an empty file.
#[derive(Drop)]
pub struct SureShelf {
    files: Vec<ShelfFile>,
    pieces: PieceNotes,
}

impl Model for SureShelf {
    ghost use Rattle.station.specs.Plans.{HeldFiles};

    ghost Value = { HeldFiles };

    ghost view = { λ s. record { files = s.files.items; pieces = s.pieces } };
}

impl SureShelf {
    /// Holds these files.
    pub fn new(files: Vec<ShelfFile>) -> SureShelf
        requires { NamesDiffer files.items }
        ensures { result ≡ record { files = files.items; pieces = [] } }
    {
        SureShelf {
            files,
            pieces: PieceNotes::new(),
        }
    }
}

impl Shelf for SureShelf {
    ghost use Rattle.station.specs.Plans.{files_state};

    ghost state = { files_state };

    /// Reads as many bytes as fit, and never fails.
    fn read_at(&mut self, name: &[u8], at: u64, buf: &mut [u8]) -> Pull
        requires { 0 < length buf.old }
        ensures within { TakesWithin result buf.new }
        ensures after { files_state self.new ≡ after_piece (files_state self.old) (record { name = name.now; at = at; gave = pulled result buf.new }) }
        ensures gives { GivesAt (Some (sure_content_in self.old.files name.now)) at (pulled result buf.new) }
        ensures answer { result ≡ pull_of (drop at (sure_content_in self.old.files name.now)) (length buf.old) }
        ensures keeps { self.new.files ≡ self.old.files }
    {
        let pull = match find(self.files.as_slice(), name) {
            None => Pull::Ended,
            Some(file) => copy_at(file.bytes(), at, buf),
        };
        self.pieces.note(name, at, pull, buf);
        pull
    }
}
