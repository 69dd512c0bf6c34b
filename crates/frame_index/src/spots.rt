//! Where a frame stands first in each log that got it.

ghost use Rattle.std.specs.Prelude.{◌≡◌, ◌==◌, [], OnErr, OnOk};
ghost use Rattle.std.specs.List.{list_any};
ghost use Rattle.frame_index.specs.Spots as S;

use crate::short_spot::ShortSpot;
use crate::spot_list::SpotList;
use definitions::Spot;
use std::alloc::{AllocError, Global};
use std::marker::Model;

/// Spots of which no two are in one log, in the order in which they came.
#[derive(Drop)]
pub(crate) struct Spots {
    // no log that has a spot is above it: logs mostly come one behind the other, and then none has to be looked for
    top: u32,
    list: SpotList,
}

impl Model for Spots {
    ghost use Rattle.frame_index.specs.Spots.{AreUpTo, Spotted};

    ghost Value = { Spotted };

    ghost view = { λ s. record { items = s.list } };

    ghost invariant = { λ s. AreUpTo s.top s.list };
}

/// Whether one of the spots is in the log.
fn has_log(spots: &[ShortSpot], log: u32) -> bool
    ensures { result ≡ list_any (λ x. x.log == log) spots.now }
{
    spots.iter().any(|other| other.log() == log)
}

impl Spots {
    /// None, and no memory is taken for them.
    pub(crate) fn new(alloc: Global) -> Spots
        ensures { result.items ≡ [] }
    {
        Spots {
            top: 0,
            list: SpotList::new(alloc),
        }
    }

    /// All of them.
    pub(crate) fn all(&self) -> &[ShortSpot]
        ensures { result.now ≡ self.now.items }
    {
        self.list.as_slice()
    }

    /// Whether one of them is in the log.
    pub(crate) fn has(&self, log: u32) -> bool
        ensures { result ≡ list_any (λ x. x.log == log) self.now.items }
    {
        log <= self.top && has_log(self.list.as_slice(), log)
    }

    /// Notes a spot, unless its log has one.
    pub(crate) fn note(&mut self, spot: Spot) -> Result<(), AllocError>
        requires { S.IsInRange spot }
        ensures ok { OnOk result (self.new.items ≡ S.spot_noted self.old.items spot) }
        ensures err { OnErr result (self.new.items ≡ self.old.items) }
    {
        if self.has(spot.log) {
            return Ok(());
        }
        self.list.push(ShortSpot::new(spot))?;
        self.top = self.top.max(spot.log);
        Ok(())
    }
}
