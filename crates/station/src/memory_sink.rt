//! A sink in memory.

ghost use Rattle.std.specs.Prelude.{◌≡◌, ◌<◌, [], length, IfOk};
ghost use Rattle.station.specs.Memory.{unused, sink_answer, after_call};
ghost use Rattle.station.specs.Plans.{sink_state};
ghost use Rattle.station.specs.Sinks.{GivesWithin, after_push, is_push_failed};

use crate::calls::CallPlan;
use crate::sinks::{Push, Sink};
use std::alloc::{AllocError, Global};
use std::marker::Model;

/// Keeps what it is given in memory, up to its room. It fails at the calls that it was told to and where its room is spent.
#[derive(Drop)]
pub struct MemorySink {
    bytes: Vec<u8>,
    room: usize,
    plan: CallPlan,
}

impl Model for MemorySink {
    ghost use Rattle.std.specs.Prelude.{◌≤◌, length, vec_capacity};
    ghost use Rattle.station.specs.Plans.{HeldSink};

    ghost Value = { HeldSink };

    ghost view = { λ s. record { held = s.bytes.items; room = s.room; plan = s.plan } };

    ghost invariant = { λ s. (length s.bytes.items ≤ s.room) × (s.room ≤ vec_capacity s.bytes) };
}

impl MemorySink {
    /// Takes room for so many bytes, and holds none yet. The calls of `write` whose numbers stand in `fails`, counted
    /// from 1, fail.
    pub fn new(alloc: Global, room: usize, fails: Vec<u32>) -> Result<MemorySink, AllocError>
        ensures { IfOk result (λ sink. sink ≡ record { held = []; room = room; plan = unused fails.items }) }
    {
        Ok(MemorySink {
            bytes: Vec::with_capacity(alloc, room)?,
            room,
            plan: CallPlan::new(fails),
        })
    }

    /// What was appended so far.
    pub fn bytes(&self) -> &[u8]
        ensures { result.now ≡ self.now.held }
    {
        self.bytes.as_slice()
    }
}

impl Sink for MemorySink {
    ghost use Rattle.station.specs.Plans.{sink_state};

    ghost state = { sink_state };

    /// Fails exactly at the numbers that it was told and where its room is spent, and else appends as many bytes as fit.
    fn write(&mut self, bytes: &[u8]) -> Push
        requires { 0 < length bytes.now }
        ensures within { GivesWithin result bytes.now }
        ensures after { sink_state self.new ≡ after_push (sink_state self.old) result bytes.now }
        ensures answer { result ≡ sink_answer self.old (length bytes.now) }
        ensures counted { self.new.plan ≡ after_call self.old.plan (is_push_failed result) }
        ensures same_room { self.new.room ≡ self.old.room }
    {
        let is_listed = self.plan.begin();
        let free = self.room - self.bytes.len();
        if is_listed || free == 0 {
            self.plan.fail();
            return Push::Failed;
        }
        let count = bytes.len().min(free);
        self.bytes.extend_from_slice(&bytes[..count]).unwrap();
        Push::Gave(count)
    }
}
