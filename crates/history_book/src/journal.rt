//! The log, and how much of it was synced when.

ghost use Rattle.std.specs.Prelude.{◌≡◌, ◌<◌, ◌≤◌, ◌+◌, ◌++◌, IfOk, length, take, []};
ghost use Rattle.history_book.specs.Journals.{with_mark, synced_at, mark_at};

use std::alloc::{AllocError, Global};
use std::marker::Model;

/// A sync: how many items the history has with it, and how many bytes were kept before it.
#[derive(Clone, Copy)]
pub(crate) struct SyncMark {
    pub items: u64,
    pub kept: usize,
}

/// The bytes kept, and the syncs in order.
#[derive(Drop)]
pub(crate) struct Journal {
    kept: Vec<u8>,
    marks: Vec<SyncMark>,
}

impl Model for Journal {
    ghost use Rattle.std.specs.Prelude.{◌-◌, length, vec_capacity};
    ghost use Rattle.history_book.specs.Journals.{HeldJournal, AreMarks};

    ghost Value = { HeldJournal };

    ghost view = { λ j. record { kept = j.kept.items; marks = j.marks.items; items = vec_capacity j.marks - length j.marks.items; bytes = vec_capacity j.kept - length j.kept.items } };

    ghost invariant = { λ j. AreMarks (length j.kept.items) j.marks.items };
}

impl Journal {
    /// Takes room for so many syncs and bytes.
    pub(crate) fn new(alloc: Global, items: usize, bytes: usize) -> Result<Journal, AllocError>
        ensures { IfOk result (λ j. (j.kept ≡ []) × (j.marks ≡ []) × (items ≤ j.items) × (bytes ≤ j.bytes)) }
    {
        Ok(Journal {
            kept: Vec::with_capacity(alloc, bytes)?,
            marks: Vec::with_capacity(alloc, items)?,
        })
    }

    /// The bytes kept.
    pub(crate) fn kept(&self) -> &[u8]
        ensures { result.now ≡ self.now.kept }
    {
        self.kept.as_slice()
    }

    /// Keeps these bytes.
    pub(crate) fn keep(&mut self, bytes: &[u8])
        requires { length bytes.now ≤ self.old.bytes }
        ensures kept { self.new.kept ≡ self.old.kept ++ bytes.now }
        ensures marks { self.new.marks ≡ self.old.marks }
        ensures items_left { self.new.items ≡ self.old.items }
        ensures bytes_left { self.old.bytes ≤ self.new.bytes + length bytes.now }
    {
        self.kept.extend_from_slice(bytes).unwrap();
    }

    /// What was kept is synced, by the last of so many items.
    pub(crate) fn sync(&mut self, items: u64)
        requires { 0 < self.old.items }
        ensures kept { self.new.kept ≡ self.old.kept }
        ensures marks { self.new.marks ≡ with_mark items (length self.old.kept) self.old.marks }
        ensures items_left { self.old.items ≤ self.new.items + 1 }
        ensures bytes_left { self.new.bytes ≡ self.old.bytes }
    {
        let kept = self.kept.len();
        self.marks.push(SyncMark { items, kept }).unwrap();
    }

    /// The bytes kept up to the last sync among so many items.
    pub(crate) fn synced(&self, items: u64) -> &[u8]
        ensures { result.now ≡ take (synced_at items self.now.marks) self.now.kept }
    {
        let until = synced_until(self.marks.as_slice(), items);
        &self.kept[..until]
    }
}

/// How many bytes were kept before the last sync among so many items.
fn synced_until(marks: &[SyncMark], items: u64) -> usize
    ensures { result ≡ synced_at items marks.now }
{
    let mut until = 0;
    for mark in marks {
        until = synced_by(*mark, items, until);
    }
    until
}

/// The same where it is known without the last mark.
fn synced_by(mark: SyncMark, items: u64, until: usize) -> usize
    ensures { result ≡ mark_at items until mark }
{
    if mark.items <= items {
        mark.kept
    } else {
        until
    }
}
