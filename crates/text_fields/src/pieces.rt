//! A few bytes by value.

ghost use Rattle.std.specs.Prelude.{◌≡◌, ◌≤◌, length, take};

use definitions::limits::LONGEST_PIECE;
use std::marker::Model;

/// At most `LONGEST_PIECE` bytes, which a line spells.
#[derive(Drop)]
pub struct Piece {
    bytes: [u8; LONGEST_PIECE],
    len: usize,
}

impl Model for Piece {
    ghost use Rattle.std.specs.Prelude.{◌≤◌, List, ℕ, take};
    ghost use Rattle.definitions.specs.declared.limits.TheConstants.{LONGEST_PIECE};

    ghost Value = { List ℕ };

    ghost view = { λ p. take p.len p.bytes };

    ghost invariant = { λ p. p.len ≤ LONGEST_PIECE };
}

impl Piece {
    /// The first so many of these bytes.
    pub(crate) fn of(bytes: [u8; LONGEST_PIECE], len: usize) -> Piece
        requires { len ≤ LONGEST_PIECE }
        ensures { result ≡ take len bytes }
    {
        Piece { bytes, len }
    }

    /// The bytes, at most `LONGEST_PIECE`.
    pub fn as_slice(&self) -> &[u8]
        ensures bytes { result.now ≡ self.now }
        ensures few { length self.now ≤ LONGEST_PIECE }
    {
        &self.bytes[..self.len]
    }
}
