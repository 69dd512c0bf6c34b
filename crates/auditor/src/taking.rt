//! The entries of a log that comes in pieces.

ghost use Rattle.std.specs.Prelude.{◌≡◌, ◌<◌, ◌≤◌, ◌+◌, ◌-◌, ℕ, [], drop, length, take, IfOk, IfSome, IsTrue, OnOk, OnErr};
ghost use Rattle.std.specs.List.{list_all};
ghost use Rattle.session_log.specs.Fed.{IsFeedOf};
ghost use Rattle.session_log.specs.Feeding.{LogFeeding};
ghost use Rattle.auditor.specs.Audits.{count_in, is_of_its_sender, owner_in};
ghost use Rattle.auditor.specs.Taking as T;

use crate::auditor::{Auditor, name_owner};
use crate::batches::{Batch, read_batch};
use definitions::limits::LONGEST_LOG;
use definitions::{Entry, PlayerId};
use frame_index::MOST_LOGS;
use session_log::{LogFeed, NO_ENTRY};
use std::alloc::AllocError;

/// As many entries are best read before they are taken.
pub const BATCH: usize = 64;

impl Auditor {
    /// The log is this player's, or its owner isn't known.
    fn note_owner(&mut self, log: u32, owner: Option<PlayerId>)
        requires log { log < MOST_LOGS }
        ensures stands { T.Takes self.old self.new log [] }
        ensures count { count_in self.new log ≡ count_in self.old log }
        ensures session { self.new.session ≡ self.old.session }
        ensures owner { owner_in self.new log ≡ owner }
        ensures others { T.LeavesOthers self.old self.new log }
    {
        name_owner(&mut self.owners, log, owner);
    }

    /// Takes entries of the log one behind the other.
    fn take_batch(&mut self, log: u32, batch: &[Entry]) -> Result<(), AllocError>
        requires log { log < MOST_LOGS }
        requires few { count_in self.old log + length batch.now ≤ LONGEST_LOG }
        requires sent { IsTrue (list_all is_of_its_sender batch.now) }
        ensures all { OnOk result (T.Takes self.old self.new log batch.now) }
        ensures some { OnErr result (T.TakesFront self.old self.new log batch.now) }
        ensures count { OnOk result (count_in self.new log ≡ count_in self.old log + length batch.now) }
        ensures session { self.new.session ≡ self.old.session }
        ensures owner { owner_in self.new log ≡ owner_in self.old log }
        ensures others { T.LeavesOthers self.old self.new log }
    {
        'entries: for entry in batch {
            self.take(log, entry)?;
        }
        Ok(())
    }

    /// Feeds the bytes of the piece from this place on, counted from 0, and takes the entries that end in them, as many as the room has
    /// places for: they stand in the room then. Where they are fewer than the places, these were all that the piece ends. Whoever
    /// wants to see the entries that are taken calls it until then, each time from the place where the batch before ended.
    ///
    /// An error comes where the auditor's allocator has no memory, and then the first of these entries were taken.
    pub fn take_next(
        &mut self,
        log: u32,
        feed: &mut LogFeed,
        piece: &[u8],
        at: usize,
        room: &mut [Entry],
    ) -> Result<Batch, AllocError>
        requires log { log < MOST_LOGS }
        requires at { at ≤ length piece.now }
        requires few { feed.old.used + (length piece.now - at) ≤ LONGEST_LOG }
        requires feeding { T.IsFeeding self.old log feed.old }
        ensures full { IfOk result (λ b. b.count ≡ length room.old → T.ReadsOn self.old.session feed.old feed.new (drop at piece.now) (drop b.at piece.now) (take b.count room.new)) }
        ensures all { IfOk result (λ b. b.count < length room.old → T.ReadsAll self.old.session feed.old feed.new (drop at piece.now) (take b.count room.new)) }
        ensures taken { IfOk result (λ b. T.Takes self.old self.new log (take b.count room.new)) }
        ensures some { OnErr result ((f : LogFeeding) → IsFeedOf feed.old f → T.TakesSome self.old.session self.old self.new log (drop at piece.now) f) }
        ensures fits { IfOk result (λ b. (b.count ≤ length room.old) × (at + b.count ≤ b.at) × (b.at ≤ length piece.now)) }
        ensures used { IfOk result (λ b. b.count ≡ length room.old → feed.new.used ≡ feed.old.used + (b.at - at)) }
        ensures within { feed.new.used ≤ feed.old.used + (length piece.now - at) }
        ensures feeding { OnOk result (T.IsFeeding self.new log feed.new) }
        ensures session { self.new.session ≡ self.old.session }
        ensures owner { owner_in self.new log ≡ feed.new.owner }
        ensures others { T.LeavesOthers self.old self.new log }
        ensures room { length room.new ≡ length room.old }
    {
        let batch = read_batch(&self.session, feed, piece, at, room);
        self.note_owner(log, feed.owner());
        self.take_batch(log, &room[..batch.count])?;
        Ok(batch)
    }

    /// Takes the next batch: the place behind it, or none where these were all.
    fn take_on(
        &mut self,
        log: u32,
        feed: &mut LogFeed,
        piece: &[u8],
        at: usize,
        room: &mut [Entry],
    ) -> Result<Option<usize>, AllocError>
        requires log { log < MOST_LOGS }
        requires at { at ≤ length piece.now }
        requires few { feed.old.used + (length piece.now - at) ≤ LONGEST_LOG }
        requires feeding { T.IsFeeding self.old log feed.old }
        requires room { 0 < length room.old }
        ensures next { IfOk result (λ o. T.TakesOn self.old.session self.old self.new log feed.old feed.new piece.now at o) }
        ensures some { OnErr result ((f : LogFeeding) → IsFeedOf feed.old f → T.TakesSome self.old.session self.old self.new log (drop at piece.now) f) }
        ensures used { IfOk result (λ o. IfSome o (λ next. (at < next) × (next ≤ length piece.now) × (feed.new.used ≡ feed.old.used + (next - at)))) }
        ensures within { feed.new.used ≤ feed.old.used + (length piece.now - at) }
        ensures feeding { OnOk result (T.IsFeeding self.new log feed.new) }
        ensures session { self.new.session ≡ self.old.session }
        ensures owner { owner_in self.new log ≡ feed.new.owner }
        ensures others { T.LeavesOthers self.old self.new log }
        ensures room { length room.new ≡ length room.old }
    {
        let batch = self.take_next(log, feed, piece, at, room)?;
        if batch.count < room.len() {
            return Ok(None);
        }
        Ok(Some(batch.at))
    }

    /// Takes the bytes of the log that come next, as they are fed to the log's feed: the auditor stands for the logs with the entries
    /// that these bytes end, and the log's owner is known once its byte came. Behind a fault of the log, which the feed tells,
    /// nothing is taken. An error comes where the auditor's allocator has no memory, and then the first of these entries were taken.
    pub fn take_bytes(
        &mut self,
        log: u32,
        feed: &mut LogFeed,
        bytes: &[u8],
    ) -> Result<(), AllocError>
        requires log { log < MOST_LOGS }
        requires few { feed.old.used + length bytes.now ≤ LONGEST_LOG }
        requires feeding { T.IsFeeding self.old log feed.old }
        ensures all { OnOk result ((f : LogFeeding) → IsFeedOf feed.old f → T.TakesAll self.old.session self.old self.new log feed.old feed.new bytes.now f) }
        ensures some { OnErr result ((f : LogFeeding) → IsFeedOf feed.old f → T.TakesSome self.old.session self.old self.new log bytes.now f) }
        ensures within { feed.new.used ≤ feed.old.used + length bytes.now }
        ensures feeding { OnOk result (T.IsFeeding self.new log feed.new) }
        ensures session { self.new.session ≡ self.old.session }
        ensures owner { owner_in self.new log ≡ feed.new.owner }
        ensures others { T.LeavesOthers self.old self.new log }
    {
        let mut room = [NO_ENTRY; BATCH];
        let mut at = 0;
        'batches: while let Some(next) = self.take_on(log, feed, bytes, at, &mut room)? {
            at = next;
        }
        Ok(())
    }
}
