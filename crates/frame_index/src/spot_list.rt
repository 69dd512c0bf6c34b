//! A list of spots of which the first few stand in the list itself. Nearly all frames are kept for few logs, and taking memory for each
//! of them costs more than all else that is done with a frame that is known.

ghost use Rattle.std.specs.Prelude.{◌≡◌, ◌<◌, ◌≤◌, [], ◌∷◌, ◌++◌, length, nat_lt, OnErr, OnOk};

use crate::short_spot::ShortSpot;
use definitions::Spot;
use std::alloc::{AllocError, Global};
use std::array::from_fn;
use std::marker::Model;

/// As many spots as stand in the list itself: a match of sixteen is audited without any more memory.
const FEW: usize = 16;

/// For as many more room is made when they don't fit any longer.
const ROOM: usize = 16;

/// What stands where no spot does.
const BLANK: Spot = Spot { log: 0, entry: 0 };

/// At most `FEW` spots.
#[derive(Drop)]
struct FewSpots {
    count: usize,
    items: [ShortSpot; FEW],
}

impl Model for FewSpots {
    ghost use Rattle.std.specs.Prelude.{List, take, ◌≤◌};
    ghost use Rattle.definitions.specs.declared.findings.Spot.{Spot};
    ghost use Rattle.frame_index.specs.declared.spot_list.TheConstants.{FEW};

    ghost Value = { List Spot };

    ghost view = { λ s. take s.count s.items };

    ghost invariant = { λ s. s.count ≤ FEW };
}

impl FewSpots {
    /// None.
    fn new() -> FewSpots
        ensures { result ≡ [] }
    {
        FewSpots {
            count: 0,
            items: from_fn(|_| ShortSpot::new(BLANK)),
        }
    }

    /// All of them.
    fn as_slice(&self) -> &[ShortSpot]
        ensures { result.now ≡ self.now }
    {
        &self.items[..self.count]
    }

    /// Whether one more fits.
    fn has_room(&self) -> bool
        ensures { result ≡ nat_lt (length self.now) FEW }
    {
        self.as_slice().len() < FEW
    }

    /// Puts a spot behind the others.
    fn push(&mut self, spot: ShortSpot)
        requires { length self.old < FEW }
        ensures { self.new ≡ self.old ++ spot ∷ [] }
    {
        self.items[self.count] = spot;
        self.count += 1;
    }
}

/// Spots in the order in which they came.
#[derive(Drop)]
pub(crate) struct SpotList {
    few: FewSpots,
    // all of them, once they are more than a few, and before that nothing
    many: Vec<ShortSpot>,
}

impl Model for SpotList {
    ghost use Rattle.std.specs.Prelude.{List};
    ghost use Rattle.definitions.specs.declared.findings.Spot.{Spot};
    ghost use Rattle.frame_index.specs.Spots.{spots_in};

    ghost Value = { List Spot };

    ghost view = { λ s. spots_in s.few s.many.items };
}

impl SpotList {
    /// None, and no memory is taken for them.
    pub(crate) fn new(alloc: Global) -> SpotList
        ensures { result ≡ [] }
    {
        SpotList {
            few: FewSpots::new(),
            many: Vec::new(alloc),
        }
    }

    /// All of them.
    pub(crate) fn as_slice(&self) -> &[ShortSpot]
        ensures { result.now ≡ self.now }
    {
        if self.many.is_empty() {
            self.few.as_slice()
        } else {
            &self.many
        }
    }

    /// Puts a spot behind the others.
    pub(crate) fn push(&mut self, spot: ShortSpot) -> Result<(), AllocError>
        ensures ok { OnOk result (self.new ≡ self.old ++ spot ∷ []) }
        ensures err { OnErr result (self.new ≡ self.old) }
    {
        if !self.many.is_empty() {
            self.many.push(spot)?;
            return Ok(());
        }
        if self.few.has_room() {
            self.few.push(spot);
            return Ok(());
        }
        self.many.reserve(FEW + ROOM)?;
        self.many.extend_from_slice(self.few.as_slice())?;
        self.many.push(spot)?;
        Ok(())
    }
}
