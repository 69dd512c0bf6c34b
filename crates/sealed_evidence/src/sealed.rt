//! An exhibit with its seals.

ghost use Rattle.std.specs.Prelude.{◌≡◌};

use evidence::Exhibit;
use seal_keys::Seal;
use std::marker::Model;

/// Seals, in the order of the frames that they are for.
#[derive(Drop)]
pub struct SealList {
    seals: Vec<Seal>,
}

impl Model for SealList {
    ghost use Rattle.std.specs.Prelude.{ℕ, List};

    ghost Value = { List (List ℕ) };

    ghost view = { λ l. l.seals.items };
}

impl SealList {
    /// The list of these seals. It takes no memory.
    pub fn new(seals: Vec<Seal>) -> SealList
        ensures { result ≡ seals.items }
    {
        SealList { seals }
    }

    /// The seals, the first one first.
    pub fn as_slice(&self) -> &[Seal]
        ensures { result.now ≡ self.now }
    {
        &self.seals
    }
}

/// An exhibit with its seals, of which there is to be one for each of its frames, in their order.
#[derive(Drop)]
pub struct SealedExhibit {
    /// What is to be shown, and by which frames.
    pub exhibit: Exhibit,
    /// The seals of the frames.
    pub seals: SealList,
}
