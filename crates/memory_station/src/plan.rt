//! Which calls of the station are to fail.

ghost use Rattle.std.specs.Prelude.{◌≡◌, ◌<◌, ◌++◌, ◌∷◌, [], length, IfOk, Some};
ghost use Rattle.memory_station.specs.Plans.{new_plan, fails};

use std::alloc::{AllocError, Global};
use std::marker::Model;

/// How many calls may be named one by one.
pub(crate) const MOST_NAMED: usize = 64;

/// Knows which calls are to fail.
#[derive(Drop)]
pub(crate) struct CallPlan {
    named: Vec<u32>,
    from: Option<u32>,
}

impl Model for CallPlan {
    ghost use Rattle.std.specs.Prelude.{◌≤◌, vec_capacity};
    ghost use Rattle.memory_station.specs.Plans.{HeldPlan};
    ghost use Rattle.memory_station.specs.declared.plan.TheConstants.{MOST_NAMED};

    ghost Value = { HeldPlan };

    ghost view = { λ p. record { named = p.named.items; from = p.from } };

    ghost invariant = { λ p. MOST_NAMED ≤ vec_capacity p.named };
}

impl CallPlan {
    /// No call is to fail. It has room for `MOST_NAMED` numbers.
    pub(crate) fn new(alloc: Global) -> Result<CallPlan, AllocError>
        ensures { IfOk result (λ p. p ≡ new_plan) }
    {
        Ok(CallPlan {
            named: Vec::with_capacity(alloc, MOST_NAMED)?,
            from: None,
        })
    }

    /// The call of that number is to fail.
    pub(crate) fn fail_call(&mut self, number: u32)
        requires { length self.old.named < MOST_NAMED }
        ensures { self.new ≡ record self.old { named = self.old.named ++ number ∷ [] } }
    {
        self.named.push(number).unwrap();
    }

    /// Each call from that number on is to fail.
    pub(crate) fn fail_from(&mut self, number: u32)
        ensures { self.new ≡ record self.old { from = Some number } }
    {
        self.from = Some(number);
    }

    /// Whether the call of that number is to fail.
    pub(crate) fn fails(&self, number: u64) -> bool
        ensures { result ≡ fails self.now number }
    {
        let is_late = match self.from {
            Some(from) => from as u64 <= number,
            None => false,
        };
        match u32::try_from(number) {
            Ok(number) => is_late || self.named.contains(&number),
            Err(_) => is_late,
        }
    }
}
