//! The auditor, and the entries that it takes.
//!
//! What hands an entry on is inlined, here and in [`crate::batches`]: each entry of each log goes through it.

ghost use Rattle.std.specs.Prelude.{◌≡◌, ◌<◌, ◌+◌, ℕ, List, [], None, Some, slice_get, slice_index, length, replicate, IfOk, OnOk, OnErr, IsTrue};
ghost use Rattle.definitions.specs.declared.logs.Entry.{Entry};
ghost use Rattle.definitions.specs.World.{Game};
ghost use Rattle.frame_index.specs.Appended.{with_entry};
ghost use Rattle.frame_index.specs.Frames.{IsIndex};
ghost use Rattle.auditor.specs.Audits.{IsAuditOf, count_in, counts_after, crossed, is_of_its_sender, logs_after, owner_in, owners_with, put_at};

use definitions::limits::LONGEST_LOG;
use definitions::{Entry, PlayerId, Spot};
use frame_index::{FrameIndex, MOST_LOGS, own_entries_change_nothing};
use grid_world::Session;
use std::alloc::{AllocError, Global};
use std::marker::Model;

/// How many logs an auditor has room for.
const LOGS: usize = MOST_LOGS as usize;

/// What the logs of a session show together, of which the entries come one by one.
#[derive(Drop)]
pub struct Auditor {
    pub(crate) session: Session,
    // the frames that logs got, and those that the logs' owners made
    pub(crate) index: FrameIndex,
    pub(crate) made: FrameIndex,
    // of each log, by its number: how many entries were taken, and whose log it is
    counts: [u32; LOGS],
    pub(crate) owners: [Option<PlayerId>; LOGS],
}

impl Model for Auditor {
    ghost use Rattle.auditor.specs.Audits.{AuditState};

    ghost Value = { AuditState };

    ghost view = { λ a. record { session = a.session; index = a.index; made = a.made; counts = a.counts; owners = a.owners } };
}

/// One entry more was taken of the log.
#[inline(always)]
fn count_one(counts: &mut [u32], log: u32)
    requires log { log < length counts.old }
    requires few { slice_index counts.old log < LONGEST_LOG }
    ensures { counts.new ≡ put_at 0 counts.old log (slice_index counts.old log + 1) }
{
    counts[log as usize] += 1;
}

/// The log is of this owner.
pub(crate) fn name_owner(owners: &mut [Option<PlayerId>], log: u32, owner: Option<PlayerId>)
    requires { log < length owners.old }
    ensures { owners.new ≡ owners_with owners.old log owner }
{
    owners[log as usize] = owner;
}

/// Takes the frame of the entry at the spot: to the frames that logs got, or to those that their owners made.
#[inline(always)]
fn take_entry(
    index: &mut FrameIndex,
    made: &mut FrameIndex,
    session: &Session,
    spot: Spot,
    entry: &Entry,
) -> Result<(), AllocError>
    requires log { spot.log < MOST_LOGS }
    requires few { spot.entry < LONGEST_LOG }
    requires sender { IsTrue (is_of_its_sender entry.now) }
    ensures got { OnOk result ((logs : List (List Entry)) (h : List Entry) → slice_get logs spot.log ≡ Some h → spot.entry ≡ length h → IsIndex session.now logs index.old → IsIndex session.now (with_entry logs spot.log entry.now) index.new) }
    ensures made { OnOk result ((logs : List (List Entry)) (h : List Entry) → slice_get logs spot.log ≡ Some h → spot.entry ≡ length h → IsIndex session.now logs made.old → IsIndex session.now (with_entry logs spot.log (crossed entry.now)) made.new) }
    ensures got_err { OnErr result ((logs : List (List Entry)) → IsIndex session.now logs index.old → IsIndex session.now logs index.new) }
    ensures made_err { OnErr result ((logs : List (List Entry)) → IsIndex session.now logs made.old → IsIndex session.now logs made.new) }
{
    own_entries_change_nothing();
    match entry {
        Entry::Got(_, frame) => index.take(session, frame, spot),
        Entry::Made(frame) => made.take(session, frame, spot),
        Entry::Chose { .. } => Ok(()),
    }
}

impl Auditor {
    /// An auditor of logs of the session that took no entry yet: it stands for 64 empty logs. The allocator is kept, and an error
    /// comes where it has no memory for a copy of the session.
    pub fn new(alloc: Global, session: &Session) -> Result<Auditor, AllocError>
        ensures stands { IfOk result (λ a. IsAuditOf session.now (replicate MOST_LOGS []) a) }
        ensures counts { IfOk result (λ a. (log : ℕ) → count_in a log ≡ 0) }
        ensures owners { IfOk result (λ a. (log : ℕ) → owner_in a log ≡ None) }
    {
        Ok(Auditor {
            session: session.copy(alloc)?,
            index: FrameIndex::new(alloc),
            made: FrameIndex::new(alloc),
            counts: [0; LOGS],
            owners: [None; LOGS],
        })
    }

    /// The log is this player's. It is given once, before the log's first entry. It takes no memory.
    pub fn owner(&mut self, log: u32, owner: PlayerId)
        requires log { log < MOST_LOGS }
        ensures after { self.new ≡ record self.old { owners = owners_with self.old.owners log (Some owner) } }
        ensures stands { (game : Game) (logs : List (List Entry)) → IsAuditOf game logs self.old → IsAuditOf game logs self.new }
    {
        name_owner(&mut self.owners, log, Some(owner));
    }

    /// What is kept of the frames that logs got.
    pub fn got(&self) -> &FrameIndex
        ensures { result.now ≡ self.now.index }
    {
        &self.index
    }

    /// What is kept of the frames that the logs' owners made, each as a frame that was got of its owner.
    pub fn made(&self) -> &FrameIndex
        ensures { result.now ≡ self.now.made }
    {
        &self.made
    }

    /// How many entries were taken of the log.
    pub fn count(&self, log: u32) -> u32
        requires log { log < MOST_LOGS }
        ensures { result ≡ count_in self.now log }
    {
        self.counts[log as usize]
    }

    /// Takes the next entry of the log of this number, counted from 0. The auditor stands for the logs with the entry at the end of
    /// that log. An error comes where the auditor's allocator has no memory, and then it stands for the logs without the entry.
    ///
    /// A log has no more entries than bytes, and what it got is of the player from whom it came, as the grammar of logs has it.
    #[inline(always)]
    pub fn take(&mut self, log: u32, entry: &Entry) -> Result<(), AllocError>
        requires log { log < MOST_LOGS }
        requires few { count_in self.old log < LONGEST_LOG }
        requires sender { IsTrue (is_of_its_sender entry.now) }
        ensures after { self.new ≡ record self.old { index = self.new.index; made = self.new.made; counts = counts_after result self.old.counts log } }
        ensures stands { (game : Game) (logs : List (List Entry)) → IsAuditOf game logs self.old → IsAuditOf game (logs_after result logs log entry.now) self.new }
    {
        let spot = Spot {
            log,
            entry: self.counts[log as usize],
        };
        match take_entry(&mut self.index, &mut self.made, &self.session, spot, entry) {
            Ok(()) => {
                count_one(&mut self.counts, log);
                Ok(())
            }
            Err(wanting) => Err(wanting),
        }
    }
}
