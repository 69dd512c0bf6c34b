//! Notes of what the outside answered, which only proofs read.

ghost use Rattle.std.specs.Prelude.{◌≡◌, [], ◌∷◌, ◌++◌};
ghost use Rattle.station.specs.Sources.{TakesWithin, pulled};

use crate::sources::Pull;
use record::Record;
use std::marker::Model;

/// The bytes that were moved so far.
#[derive(Drop)]
pub struct ByteNotes {
    record: Record,
}

impl Model for ByteNotes {
    ghost use Rattle.std.specs.Prelude.{List, ℕ};
    ghost use Rattle.station.specs.Noted.{bytes_of};

    ghost Value = { List ℕ };

    ghost view = { λ n. bytes_of n.record.notes };
}

impl ByteNotes {
    /// Nothing was moved.
    pub fn new() -> ByteNotes
        ensures { result ≡ [] }
    {
        ByteNotes {
            record: Record::new(),
        }
    }

    /// These bytes were moved.
    #[tactic(auto, using(crate::proofs::Recorded::bytes_more))]
    pub fn note(&mut self, bytes: &[u8])
        ensures { self.new ≡ self.old ++ bytes.now }
    {
        self.record.note(&[], b"", bytes);
    }
}

/// What the calls of a shelf answered so far.
#[derive(Drop)]
pub struct PieceNotes {
    record: Record,
}

impl Model for PieceNotes {
    ghost use Rattle.std.specs.Prelude.{List};
    ghost use Rattle.station.specs.Pieces.{Piece};
    ghost use Rattle.station.specs.Noted.{pieces_of};

    ghost Value = { List Piece };

    ghost view = { λ n. pieces_of n.record.notes };
}

impl PieceNotes {
    /// No call was made.
    pub fn new() -> PieceNotes
        ensures { result ≡ [] }
    {
        PieceNotes {
            record: Record::new(),
        }
    }

    /// This was answered to a call for that name at that place. What was taken stands at the front of the buffer.
    pub fn note(&mut self, name: &[u8], at: u64, pull: Pull, buf: &[u8])
        requires { TakesWithin pull buf.now }
        ensures { self.new ≡ self.old ++ record { name = name.now; at = at; gave = pulled pull buf.now } ∷ [] }
    {
        match pull {
            Pull::Took(count) => self.record.note(&[at], name, &buf[..count]),
            Pull::Ended => self.record.note(&[at], name, b""),
            Pull::Failed => self.record.note(&[at, 1], name, b""),
        }
    }
}
