//! A source in memory.

ghost use Rattle.std.specs.Prelude.{◌≡◌, ◌<◌, [], length};
ghost use Rattle.station.specs.Memory.{unused, source_answer, after_call};
ghost use Rattle.station.specs.Plans.{Bytes, source_state};
ghost use Rattle.station.specs.Sources.{TakesWithin, after_pull, is_pull_failed};

use crate::calls::CallPlan;
use crate::sources::{Pull, Source};
use crate::sure::SureSource;
use std::marker::Model;

/// Bytes in memory. It fails at the calls that it was told to.
#[derive(Drop)]
pub struct MemorySource {
    source: SureSource,
    plan: CallPlan,
}

impl Model for MemorySource {
    ghost use Rattle.station.specs.Plans.{HeldSource};

    ghost Value = { HeldSource };

    ghost view = { λ s. record { seen = s.source.seen; left = s.source.left; plan = s.plan } };
}

impl MemorySource {
    /// Has these bytes left. The calls of `read` whose numbers stand in `fails`, counted from 1, fail.
    pub fn new(bytes: Vec<u8>, fails: Vec<u32>) -> MemorySource
        ensures { result ≡ record { seen = []; left = Bytes bytes.items; plan = unused fails.items } }
    {
        MemorySource {
            source: SureSource::new(bytes),
            plan: CallPlan::new(fails),
        }
    }
}

impl Source for MemorySource {
    ghost use Rattle.station.specs.Plans.{source_state};

    ghost state = { source_state };

    /// Fails exactly at the numbers that it was told, and else takes as many bytes as fit.
    fn read(&mut self, buf: &mut [u8]) -> Pull
        requires { 0 < length buf.old }
        ensures within { TakesWithin result buf.new }
        ensures after { source_state self.new ≡ after_pull (source_state self.old) result buf.new }
        ensures answer { result ≡ source_answer self.old (length buf.old) }
        ensures counted { self.new.plan ≡ after_call self.old.plan (is_pull_failed result) }
    {
        if self.plan.begin() {
            self.plan.fail();
            return Pull::Failed;
        }
        self.source.read(buf)
    }
}
