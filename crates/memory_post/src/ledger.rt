//! The room that is left for the history, and which calls are to fail.

ghost use Rattle.std.specs.Prelude.{◌≡◌, ◌<◌, ◌-◌, ◌++◌, ◌∷◌, [], length, IfOk};
ghost use Rattle.memory_post.specs.Ledgers.{new_ledger, goes, charged, fits, fails_next};

use std::alloc::{AllocError, Global};
use std::marker::Model;

/// How many calls may be named.
pub(crate) const MOST_NAMED: usize = 64;

/// How many calls were answered, and for how many items and bytes more there is room. Also whether
/// a call found too little, and the numbers of the calls that are to fail, counted from 1.
#[derive(Drop)]
pub(crate) struct Ledger {
    calls: u64,
    items: usize,
    bytes: usize,
    is_spent: bool,
    named: Vec<u32>,
}

impl Model for Ledger {
    ghost use Rattle.std.specs.Prelude.{◌≤◌, vec_capacity};
    ghost use Rattle.memory_post.specs.Ledgers.{HeldLedger};
    ghost use Rattle.memory_post.specs.declared.ledger.TheConstants.{MOST_NAMED};

    ghost Value = { HeldLedger };

    ghost view = { λ l. record { calls = l.calls; items = l.items; bytes = l.bytes; is_spent = l.is_spent; named = l.named.items } };

    ghost invariant = { λ l. MOST_NAMED ≤ vec_capacity l.named };
}

impl Ledger {
    /// No call was answered, and none is to fail. There is room for so many items and bytes.
    pub(crate) fn new(alloc: Global, items: usize, bytes: usize) -> Result<Ledger, AllocError>
        ensures { IfOk result (λ l. l ≡ new_ledger items bytes) }
    {
        Ok(Ledger {
            calls: 0,
            items,
            bytes,
            is_spent: false,
            named: Vec::with_capacity(alloc, MOST_NAMED)?,
        })
    }

    /// The call of that number is to fail.
    pub(crate) fn fail_call(&mut self, number: u32)
        requires { length self.old.named < MOST_NAMED }
        ensures { self.new ≡ record self.old { named = self.old.named ++ number ∷ [] } }
    {
        self.named.push(number).unwrap();
    }

    /// Whether the next call is to fail.
    fn fails(&self) -> bool
        ensures { result ≡ fails_next self.now }
    {
        match u32::try_from(self.calls.saturating_add(1)) {
            Ok(number) => self.named.contains(&number),
            Err(_) => false,
        }
    }

    /// Whether an item of so many bytes has room.
    fn fits(&self, size: usize) -> bool
        ensures { result ≡ fits size self.now }
    {
        !self.is_spent && 0 < self.items && size <= self.bytes
    }

    /// Charges a call that tells so many bytes for its room, and says whether it goes on.
    pub(crate) fn charge(&mut self, size: usize) -> bool
        ensures goes { result ≡ goes size self.old }
        ensures ledger { self.new ≡ charged size self.old }
    {
        let fails = self.fails();
        let fits = self.fits(size);
        self.calls = self.calls.saturating_add(1);
        if fits {
            self.items -= 1;
            self.bytes -= size;
        } else {
            self.is_spent = true;
        }
        fits && !fails
    }

    /// For how many items more there is room.
    pub(crate) fn items(&self) -> usize
        ensures { result ≡ self.now.items }
    {
        let _ = &self.named;
        self.items
    }
}
