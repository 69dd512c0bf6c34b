//! A shelf in memory.

ghost use Rattle.std.specs.Prelude.{◌≡◌, ◌<◌, [], length};
ghost use Rattle.station.specs.Files.{NamesDiffer, content_in};
ghost use Rattle.station.specs.Memory.{unused, pull_at, shelf_answer, after_call};
ghost use Rattle.station.specs.Pieces.{GivesAt};
ghost use Rattle.station.specs.Plans.{shelf_state};
ghost use Rattle.station.specs.Shelves.{after_piece};
ghost use Rattle.station.specs.Sources.{TakesWithin, is_pull_failed, pulled};

use crate::calls::CallPlan;
use crate::copies::copy_at;
use crate::files::{ShelfFile, find};
use crate::notes::PieceNotes;
use crate::shelves::Shelf;
use crate::sources::Pull;
use std::marker::Model;

/// Files in memory. It fails at the calls that it was told to and for a name that isn't there.
#[derive(Drop)]
pub struct MemoryShelf {
    files: Vec<ShelfFile>,
    pieces: PieceNotes,
    plan: CallPlan,
}

impl Model for MemoryShelf {
    ghost use Rattle.station.specs.Plans.{HeldShelf};

    ghost Value = { HeldShelf };

    ghost view = { λ s. record { files = s.files.items; pieces = s.pieces; plan = s.plan } };
}

impl MemoryShelf {
    /// Holds these files. The calls of `read_at` whose numbers stand in `fails`, counted from 1, fail.
    pub fn new(files: Vec<ShelfFile>, fails: Vec<u32>) -> MemoryShelf
        requires { NamesDiffer files.items }
        ensures { result ≡ record { files = files.items; pieces = []; plan = unused fails.items } }
    {
        MemoryShelf {
            files,
            pieces: PieceNotes::new(),
            plan: CallPlan::new(fails),
        }
    }
}

/// The bytes of the file of that name from the place `at` on, as many as fit. A name that isn't there is a fault.
fn read_in(files: &[ShelfFile], name: &[u8], at: u64, buf: &mut [u8]) -> Pull
    requires { 0 < length buf.old }
    ensures within { TakesWithin result buf.new }
    ensures gives { GivesAt (content_in files.now name.now) at (pulled result buf.new) }
    ensures answer { result ≡ pull_at (content_in files.now name.now) at (length buf.old) }
{
    match find(files, name) {
        None => Pull::Failed,
        Some(file) => copy_at(file.bytes(), at, buf),
    }
}

impl Shelf for MemoryShelf {
    ghost use Rattle.station.specs.Plans.{shelf_state};

    ghost state = { shelf_state };

    /// Fails exactly at the numbers that it was told and for a name that isn't there, and else reads as many bytes as
    /// fit.
    fn read_at(&mut self, name: &[u8], at: u64, buf: &mut [u8]) -> Pull
        requires { 0 < length buf.old }
        ensures within { TakesWithin result buf.new }
        ensures after { shelf_state self.new ≡ after_piece (shelf_state self.old) (record { name = name.now; at = at; gave = pulled result buf.new }) }
        ensures gives { GivesAt (content_in self.old.files name.now) at (pulled result buf.new) }
        ensures answer { result ≡ shelf_answer self.old name.now at (length buf.old) }
        ensures counted { self.new.plan ≡ after_call self.old.plan (is_pull_failed result) }
        ensures keeps { self.new.files ≡ self.old.files }
    {
        let pull = if self.plan.begin() {
            Pull::Failed
        } else {
            read_in(self.files.as_slice(), name, at, buf)
        };
        if let Pull::Failed = pull {
            self.plan.fail();
        }
        self.pieces.note(name, at, pull, buf);
        pull
    }
}
