//! Which calls of an object in memory fail.

ghost use Rattle.std.specs.Prelude.{◌≡◌, false};
ghost use Rattle.station.specs.Outside.{one_more};
ghost use Rattle.station.specs.Memory.{unused, fails_next, after_call};

use std::marker::Model;

/// Counts the calls and the faults of an object, and knows which calls are to fail.
#[derive(Drop)]
pub(crate) struct CallPlan {
    fails: Vec<u32>,
    calls: u64,
    faults: u64,
}

impl Model for CallPlan {
    ghost use Rattle.station.specs.Plans.{Plan};

    ghost Value = { Plan };

    ghost view = { λ p. record { fails = p.fails.items; calls = p.calls; faults = p.faults } };
}

impl CallPlan {
    /// The plan of an object that was not called yet.
    pub(crate) fn new(fails: Vec<u32>) -> CallPlan
        ensures { result ≡ unused fails.items }
    {
        CallPlan {
            fails,
            calls: 0,
            faults: 0,
        }
    }

    /// Counts a call, and says whether it is one of those that are to fail.
    pub(crate) fn begin(&mut self) -> bool
        ensures listed { result ≡ fails_next self.old }
        ensures after { self.new ≡ after_call self.old false }
    {
        self.calls = self.calls.saturating_add(1);
        match u32::try_from(self.calls) {
            Ok(number) => self.fails.contains(&number),
            Err(_) => false,
        }
    }

    /// Counts a fault.
    pub(crate) fn fail(&mut self)
        ensures { self.new ≡ record self.old { faults = one_more self.old.faults } }
    {
        self.faults = self.faults.saturating_add(1);
    }
}
