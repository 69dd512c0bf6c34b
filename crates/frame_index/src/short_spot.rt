//! A spot in four bytes, so that those of sixteen logs take 64 bytes, as many as a line of a processor's cache has.

ghost use Rattle.std.specs.Prelude.{◌≡◌};
ghost use Rattle.frame_index.specs.Spots.{IsInRange};

use definitions::Spot;
use definitions::limits::LONGEST_LOG;
use std::marker::Model;

/// As many numbers as entries of a log may have, one log's behind those of the log before.
const ENTRIES: u32 = LONGEST_LOG as u32;

/// A spot, as one number.
#[derive(Clone, Copy, Drop)]
pub(crate) struct ShortSpot {
    place: u32,
}

impl Model for ShortSpot {
    ghost use Rattle.std.specs.Prelude.{◌≡◌, ◌+◌, ◌*◌, ◌/◌, ◌%◌, ℕ};
    ghost use Rattle.std.proofs.Common.{ap, arith};
    ghost use Rattle.definitions.specs.declared.findings.Spot.{Spot};
    ghost use Rattle.frame_index.specs.declared.short_spot.TheConstants.{ENTRIES};

    ghost Value = { Spot };

    ghost view = { λ s. record { log = s.place / ENTRIES; entry = s.place % ENTRIES } };

    ghost inverse = { λ s. record { place = s.log * ENTRIES + s.entry } };

    ghost inverse_ok = { λ a h. ap (λ (n : ℕ). record a { place = n }) (let e : a.place / ENTRIES * ENTRIES + a.place % ENTRIES ≡ a.place = omega arith in e) };
}

impl ShortSpot {
    /// The spot, which is one of those that an index has numbers for.
    #[inline(always)]
    pub(crate) fn new(spot: Spot) -> ShortSpot
        requires { IsInRange spot }
        ensures { result ≡ spot }
    {
        ShortSpot {
            place: spot.log * ENTRIES + spot.entry,
        }
    }

    /// The spot's log.
    #[inline(always)]
    pub(crate) fn log(&self) -> u32
        ensures { result ≡ self.now.log }
    {
        self.place / ENTRIES
    }

    /// The spot in two numbers.
    #[inline(always)]
    pub(crate) fn spot(&self) -> Spot
        ensures { result ≡ self.now }
    {
        Spot {
            log: self.place / ENTRIES,
            entry: self.place % ENTRIES,
        }
    }
}
