//! The files of a host as a shelf.

ghost use Rattle.std.specs.Prelude.{◌≡◌, ◌<◌, None, [], length};
ghost use Rattle.station.specs.Shelves.{after_piece};
ghost use Rattle.station.specs.Sources.{TakesWithin, pulled};
ghost use Rattle.file_shelf.specs.Reading.{ReadsAt, pull_of, state_of};

use crate::hosts::FileHost;
use crate::reading::Reader;
use machine_host::HostFault;
use station::{PieceNotes, Pull, Shelf};
use std::alloc::Global;
use std::marker::Model;

/// Reads the files of a host by their names. It is seen as what the host was asked, and what its
/// calls answered.
#[derive(Drop)]
pub struct FileShelf<H: FileHost> {
    alloc: Global,
    reader: Reader<H>,
    pieces: PieceNotes,
    faults: u64,
}

impl<H: FileHost> Model for FileShelf<H> {
    ghost use Rattle.file_shelf.specs.Reading.{ShownShelf};

    ghost Value = { ShownShelf };

    ghost view = { λ s. record { reads = s.reader; pieces = s.pieces; faults = s.faults } };
}

/// What is answered to what a read of a file gave.
fn pull_of(read: &Result<usize, HostFault>) -> Pull
    ensures { result ≡ pull_of read.now }
{
    match read {
        Ok(0) => Pull::Ended,
        Ok(count) => Pull::Took(*count),
        Err(_) => Pull::Failed,
    }
}

impl<H: FileHost> FileShelf<H> {
    /// A shelf of the files of this host, with no call so far.
    pub fn new(alloc: Global, host: H) -> FileShelf<H>
        ensures state { ⟦<FileShelf<H> as Shelf>⟧.state result ≡ record { files = None; pieces = []; faults = 0 } }
        ensures reads { result.reads ≡ record { asks = H.history host; next = 0 } }
    {
        FileShelf {
            alloc,
            reader: Reader::new(host),
            pieces: PieceNotes::new(),
            faults: 0,
        }
    }
}

impl<H: FileHost> Shelf for FileShelf<H> {
    ghost state = { λ s. state_of s };

    fn read_at(&mut self, name: &[u8], at: u64, buf: &mut [u8]) -> Pull
        requires { 0 < length buf.old }
        ensures within { TakesWithin result buf.new }
        ensures after { state_of self.new ≡ after_piece (state_of self.old) (record { name = name.now; at = at; gave = pulled result buf.new }) }
        ensures reads { ReadsAt name.now at (pulled result buf.new) self.old.reads self.new.reads }
    {
        let read = self.reader.read(self.alloc, name, at, buf);
        let pull = pull_of(&read);
        if let Pull::Failed = pull {
            self.faults = self.faults.saturating_add(1);
        }
        self.pieces.note(name, at, pull, buf);
        pull
    }
}
