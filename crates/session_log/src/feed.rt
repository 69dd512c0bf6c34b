//! A log is read that comes in pieces.
//!
//! What reads an entry to its room is inlined, here and in [`crate::part`], [`crate::finding`] and [`crate::entries`].

ghost use Rattle.std.specs.Prelude.{◌≡◌, ◌+◌, ◌-◌, ◌≤◌, ◌<◌, ◌∷◌, ℕ, List, [], drop, false, true, length, Err, IfErr, IfSome, None, Ok, Some};
ghost use Rattle.session_log.specs.Feeding as S;
ghost use Rattle.session_log.specs.Reading.{answer_of, fault_at, next_of};
ghost use Rattle.session_log.specs.Finding as F;
ghost use Rattle.session_log.specs.Feeding.{LogFeeding};
ghost use Rattle.session_log.specs.Fed as D;
ghost use Rattle.session_log.specs.Fed.{IsFedSo, IsFeedFault, IsFeedOf, IsFeedWhy, IsGivenFirst, IsStepOf, IsToldFirst, IsToldOf, IsToldSo, after_found, fed_as, what_found};

use crate::entries::{NO_ENTRY, told_len};
use crate::faults::LogFault;
use crate::finding::is_torn;
use crate::part::Part;
use crate::reader::Next;
use definitions::limits::LONGEST_LOG;
use definitions::{Entry, LogWhy, PlayerId};
use grid_world::Session;
use std::marker::Model;

/// What a feed of a log found. The places are those of the bytes where the faulty entry begins.
#[derive(Clone, Copy, Debug, PartialEq, Eq)]
pub enum LogFedWhat {
    /// All bytes were used, and they end no entry.
    More,
    /// The next entry, with its last byte.
    Entry(Entry),
    /// With its last byte: the entry isn't chained to those before it.
    BadChain(u32),
    /// With its last byte: the entry is none that the owner's log may have. Or at 0, with the
    /// owner's byte: that is no player's number.
    BadEntry(u32),
}

/// What a feed of a log found, and how many of its bytes it used.
#[derive(Clone, Copy, Debug, PartialEq, Eq)]
pub struct LogFed {
    pub used: usize,
    pub what: LogFedWhat,
}

/// What a feed of a log found that writes an entry to the room that was given for it, and how many
/// of its bytes it used.
#[derive(Clone, Copy, Debug, PartialEq, Eq)]
pub struct LogStep {
    pub used: usize,
    /// Whether the next entry came, with its last byte: else all bytes were used, and they end no
    /// entry. Or the log's first fault, which is BadChain or BadEntry, as [`LogFedWhat`] has them.
    pub what: Result<bool, LogFault>,
}

/// What was found, with the entry that stands in the room.
fn told(what: Result<bool, LogFault>, entry: Entry) -> LogFedWhat
    ensures { result ≡ D.what_of (D.what_as what entry) }
{
    match what {
        Ok(false) => LogFedWhat::More,
        Ok(true) => LogFedWhat::Entry(entry),
        Err(fault) => match fault.why {
            LogWhy::BadChain => LogFedWhat::BadChain(fault.at),
            LogWhy::TooLong | LogWhy::Torn | LogWhy::BadEntry | LogWhy::NotReplayed => {
                LogFedWhat::BadEntry(fault.at)
            }
        },
    }
}

/// The bytes of the piece from the 32 before this place on, where there are so many, and else none.
#[inline(always)]
fn joined_at(piece: &[u8], at: usize) -> &[u8]
    requires { at ≤ length piece.now }
    ensures { 32 ≤ length result.now → drop 32 result.now ≡ drop at piece.now }
{
    if at >= 32 { &piece[at - 32..] } else { &[] }
}

/// A reader of a log of a session, whose bytes it is fed in pieces of any length. It holds what a good entry needs of the one
/// begun, and hashes what comes of a longer one.
#[derive(Drop)]
pub struct LogFeed {
    owner: Option<PlayerId>,
    // how many bytes were used, and where the entry begins of which the last ones are
    used: u32,
    at: u32,
    part: Part,
    fault: Option<LogFault>,
}

impl Model for LogFeed {
    ghost use Rattle.std.specs.Prelude.{◌<◌};
    ghost use Rattle.session_log.specs.Fed.{Fed, IsFeedFault};

    ghost Value = { Fed };

    ghost view = { λ f. record { owner = f.owner; used = f.used; at = f.at; part = f.part; fault = f.fault } };

    ghost invariant = { λ f. (f.part.digest_len < 32) × IsFeedFault f.fault };
}

impl LogFeed {
    /// A reader of a log of the session, of which it was fed nothing yet.
    pub fn new(session: &Session) -> LogFeed
        ensures feed { IsFeedOf result (S.feed_at_start session.now.id) }
        ensures used { result.used ≡ 0 }
    {
        LogFeed {
            owner: None,
            used: 0,
            at: 0,
            part: Part::new(session.id()),
            fault: None,
        }
    }

    /// Whose log it is. None comes exactly before an owner's byte below `players` was fed.
    pub fn owner(&self) -> Option<PlayerId>
        ensures { result ≡ self.now.owner }
    {
        self.owner
    }

    /// The log's fault, once a feed has answered it, which is BadChain or BadEntry. A log that is
    /// only torn has none: more of it may come.
    pub fn fault(&self) -> Option<LogFault>
        ensures fault { result ≡ self.now.fault }
        ensures why { IsFeedFault result }
    {
        self.fault
    }

    /// The fault was met, of which the last of so many bytes tells.
    fn fail(&mut self, used: usize, fault: LogFault) -> LogStep
        requires why { IsFeedWhy fault.why }
        ensures feed { self.new ≡ record self.old { fault = Some fault } }
        ensures fed { (e : Entry) → fed_as result e ≡ record { used = used; what = Err fault } }
        ensures used { result.used ≡ used }
    {
        self.fault = Some(fault);
        LogStep {
            used,
            what: Err(fault),
        }
    }

    /// The answer where the entry that began last can be used or not, and the last of so many
    /// bytes is its last.
    fn answer(&mut self, used: usize, read: Result<(), LogWhy>) -> LogStep
        requires some { 0 < used }
        requires why { IfErr read IsFeedWhy }
        requires good { self.old.fault ≡ None }
        ensures so { (e : Entry) → IsFedSo (D.what_as result.what e) result.used self.new }
        ensures feed { (e : Entry) (n : ℕ) (d : List ℕ) → self.new ≡ after_found self.old (F.found_as read e n d) }
        ensures fed { (e : Entry) (n : ℕ) (d : List ℕ) → fed_as result e ≡ record { used = used; what = what_found self.old.at (F.found_as read e n d) } }
        ensures used { result.used ≡ used }
        ensures kept { self.new.used ≡ self.old.used }
    {
        match read {
            Err(why) => {
                let at = self.at;
                self.fail(used, LogFault { at, why })
            }
            Ok(()) => {
                self.at = self.used;
                LogStep {
                    used,
                    what: Ok(true),
                }
            }
        }
    }

    /// Reads the whole entry at the front of the bytes, of which nothing came before. `joined` is empty, or the bytes with the 32 before
    /// them.
    #[inline(always)]
    fn feed_whole(
        &mut self,
        session: &Session,
        owner: PlayerId,
        bytes: &[u8],
        joined: &[u8],
        entry: &mut Entry,
    ) -> LogStep
        requires few { self.old.used + length bytes.now ≤ LONGEST_LOG }
        requires good { self.old.fault ≡ None }
        requires fresh { self.old.part.fresh ≡ true }
        requires joined { 32 ≤ length joined.now → drop 32 joined.now ≡ bytes.now }
        requires whole { F.is_torn bytes.now ≡ false }
        ensures so { IsFedSo (D.what_as result.what entry.new) result.used self.new }
        ensures step { (f : LogFeeding) → IsFeedOf self.old f → f.fault ≡ None → f.owner ≡ Some owner → IsStepOf self.new (fed_as result entry.new) (S.entry_fed session.now owner f bytes.now) }
        ensures within { result.used ≤ length bytes.now }
        ensures used { self.new.used ≡ self.old.used + result.used }
    {
        let count = told_len(bytes) + 35;
        self.used += count as u32;
        let read = self.part.take_whole(session, owner, bytes, joined, entry);
        self.answer(count, read)
    }

    /// Reads on in the owner's entry that is begun, or that doesn't end in these bytes.
    fn feed_part(
        &mut self,
        session: &Session,
        owner: PlayerId,
        bytes: &[u8],
        entry: &mut Entry,
    ) -> LogStep
        requires few { self.old.used + length bytes.now ≤ LONGEST_LOG }
        requires good { self.old.fault ≡ None }
        ensures so { IsFedSo (D.what_as result.what entry.new) result.used self.new }
        ensures step { (f : LogFeeding) → IsFeedOf self.old f → f.fault ≡ None → f.owner ≡ Some owner → IsStepOf self.new (fed_as result entry.new) (S.entry_fed session.now owner f bytes.now) }
        ensures within { result.used ≤ length bytes.now }
        ensures used { self.new.used ≡ self.old.used + result.used }
    {
        let count = self.part.take(bytes);
        self.used += count as u32;
        if !self.part.is_whole() {
            return LogStep {
                used: count,
                what: Ok(false),
            };
        }
        let read = self.part.close(session, owner, entry);
        self.answer(count, read)
    }

    /// Reads on in the owner's entries. One that comes whole is read where it stands. `joined` is empty, or the bytes with the 32 before
    /// them.
    #[inline(always)]
    fn feed_entry(
        &mut self,
        session: &Session,
        owner: PlayerId,
        bytes: &[u8],
        joined: &[u8],
        entry: &mut Entry,
    ) -> LogStep
        requires few { self.old.used + length bytes.now ≤ LONGEST_LOG }
        requires good { self.old.fault ≡ None }
        requires joined { 32 ≤ length joined.now → drop 32 joined.now ≡ bytes.now }
        ensures so { IsFedSo (D.what_as result.what entry.new) result.used self.new }
        ensures step { (f : LogFeeding) → IsFeedOf self.old f → f.fault ≡ None → f.owner ≡ Some owner → IsStepOf self.new (fed_as result entry.new) (S.entry_fed session.now owner f bytes.now) }
        ensures within { result.used ≤ length bytes.now }
        ensures used { self.new.used ≡ self.old.used + result.used }
    {
        if self.part.is_fresh() && !is_torn(bytes) {
            self.feed_whole(session, owner, bytes, joined, entry)
        } else {
            self.feed_part(session, owner, bytes, entry)
        }
    }

    /// The first byte came, which is a player's.
    fn begin(&mut self, owner: PlayerId)
        requires { self.old.used < LONGEST_LOG }
        ensures feed { (f : LogFeeding) → IsFeedOf self.old f → f.fault ≡ None → f.owner ≡ None → IsFeedOf self.new (S.feed_of f owner) }
        ensures used { self.new.used ≡ self.old.used + 1 }
        ensures fault { self.new.fault ≡ self.old.fault }
    {
        self.used += 1;
        self.owner = Some(owner);
        self.at = self.used;
        self.part.chain_on(&[owner]);
    }

    /// Reads on where no byte came yet.
    fn feed_first(&mut self, session: &Session, bytes: &[u8], entry: &mut Entry) -> LogStep
        requires few { self.old.used + length bytes.now ≤ LONGEST_LOG }
        requires good { self.old.fault ≡ None }
        ensures so { IsFedSo (D.what_as result.what entry.new) result.used self.new }
        ensures step { (f : LogFeeding) → IsFeedOf self.old f → f.fault ≡ None → f.owner ≡ None → IsStepOf self.new (fed_as result entry.new) (S.first_fed session.now f bytes.now) }
        ensures within { result.used ≤ length bytes.now }
        ensures used { self.new.used ≡ self.old.used + result.used }
    {
        match bytes {
            [] => LogStep {
                used: 0,
                what: Ok(false),
            },
            [owner, rest @ ..] => {
                if *owner >= session.players() {
                    self.used += 1;
                    return self.fail(
                        1,
                        LogFault {
                            at: 0,
                            why: LogWhy::BadEntry,
                        },
                    );
                }
                self.begin(*owner);
                let step = self.feed_entry(session, *owner, rest, &[], entry);
                LogStep {
                    used: step.used + 1,
                    what: step.what,
                }
            }
        }
    }

    /// Reads on, or answers the fault that was met. `joined` is empty, or the bytes with the 32 before them.
    #[tactic(auto, unfolding(crate::specs::Feeding::fed_step))]
    #[inline(always)]
    fn feed_on(
        &mut self,
        session: &Session,
        bytes: &[u8],
        joined: &[u8],
        entry: &mut Entry,
    ) -> LogStep
        requires few { self.old.used + length bytes.now ≤ LONGEST_LOG }
        requires joined { 32 ≤ length joined.now → drop 32 joined.now ≡ bytes.now }
        ensures step { (f : LogFeeding) → IsFeedOf self.old f → IsStepOf self.new (fed_as result entry.new) (S.fed_step session.now f bytes.now) }
        ensures within { result.used ≤ length bytes.now }
        ensures used { self.new.used ≡ self.old.used + result.used }
        ensures still { IfSome self.old.fault (λ x. (fed_as result entry.new ≡ record { used = 0; what = Err x }) × (self.new ≡ self.old)) }
        ensures so { IsFedSo (D.what_as result.what entry.new) result.used self.new }
    {
        if let Some(fault) = self.fault {
            return LogStep {
                used: 0,
                what: Err(fault),
            };
        }
        match self.owner {
            None => self.feed_first(session, bytes, entry),
            Some(owner) => self.feed_entry(session, owner, bytes, joined, entry),
        }
    }

    /// As [`LogFeed::feed`] with the bytes of a piece from a place on, but an entry that is found is written to `entry`, and no answer has
    /// to hand it on: a reader of long logs takes it from there. Where none is found, `entry` says nothing. The bytes before the place
    /// change nothing of that: they are looked at where they may be the digest to which the next entry is chained, since all then stands in one
    /// piece and is hashed at once.
    #[inline(always)]
    pub fn feed_at(
        &mut self,
        session: &Session,
        piece: &[u8],
        at: usize,
        entry: &mut Entry,
    ) -> LogStep
        requires at { at ≤ length piece.now }
        requires few { self.old.used + (length piece.now - at) ≤ LONGEST_LOG }
        ensures step { (f : LogFeeding) → IsFeedOf self.old f → IsStepOf self.new (fed_as result entry.new) (S.fed_step session.now f (drop at piece.now)) }
        ensures within { at + result.used ≤ length piece.now }
        ensures used { self.new.used ≡ self.old.used + result.used }
        ensures still { IfSome self.old.fault (λ x. (fed_as result entry.new ≡ record { used = 0; what = Err x }) × (self.new ≡ self.old)) }
        ensures so { IsFedSo (D.what_as result.what entry.new) result.used self.new }

        // What the bytes give is what was found, and then what the rest of them gives.
        ensures rest { (f : LogFeeding) → IsFeedOf self.old f → IsGivenFirst session.now f (drop at piece.now) (fed_as result entry.new) }
    {
        // less than an entry is held
        let _ = &self.part;
        self.feed_on(session, &piece[at..], joined_at(piece, at), entry)
    }

    /// Reads on in the log with these bytes, up to the end of the first entry that ends in them.
    ///
    /// Entry, BadChain and BadEntry come with the entry's last byte, BadEntry of 0 also with an
    /// owner's byte that is no player's number. `used` counts the bytes up to that one: the rest
    /// is to be fed next. More comes where all bytes are used and none of these comes. After a
    /// fault each feed answers it again, and uses nothing. A log has at most `LONGEST_LOG` bytes.
    pub fn feed(&mut self, session: &Session, bytes: &[u8]) -> LogFed
        requires { self.old.used + length bytes.now ≤ LONGEST_LOG }
        ensures step { (f : LogFeeding) → IsFeedOf self.old f → IsToldOf self.new result (S.fed_step session.now f bytes.now) }
        ensures within { result.used ≤ length bytes.now }
        ensures used { self.new.used ≡ self.old.used + result.used }
        ensures still { IfSome self.old.fault (λ x. (result ≡ record { used = 0; what = D.what_by x.why x.at }) × (self.new ≡ self.old)) }
        ensures so { IsToldSo result.what result.used self.new }

        // What the bytes give is what was told, and then what the rest of them gives.
        ensures rest { (f : LogFeeding) → IsFeedOf self.old f → IsToldFirst session.now f bytes.now result }
    {
        let mut entry = NO_ENTRY;
        let step = self.feed_at(session, bytes, 0, &mut entry);
        // a fault is one of the two that can be told
        let _ = self.fault();
        LogFed {
            used: step.used,
            what: told(step.what, entry),
        }
    }

    /// How the log ends if no more bytes come: it is whole behind an entry or where no byte came.
    /// Else it is Torn, at the place where the entry begins of which bytes lack, or has the fault
    /// that was answered. A log of the owner's byte alone is torn at 0.
    pub fn ending(&self) -> Result<(), LogFault>
        ensures { (f : LogFeeding) → IsFeedOf self.now f → result ≡ S.finished f }
    {
        if let Some(fault) = self.fault {
            return Err(fault);
        }
        if self.owner.is_none() {
            return Ok(());
        }
        if self.used > self.at {
            return Err(LogFault {
                at: self.at,
                why: LogWhy::Torn,
            });
        }
        if self.at == 1 {
            return Err(LogFault {
                at: 0,
                why: LogWhy::Torn,
            });
        }
        Ok(())
    }

    /// How the log ends if no more bytes come, as a reader tells it. End comes behind an entry or
    /// where no byte came, Torn with the place where the entry begins of which bytes lack, and
    /// else the fault that was answered. A log of the owner's byte alone is torn at 0.
    pub fn finish(&self) -> Next
        ensures { (f : LogFeeding) → IsFeedOf self.now f → result ≡ next_of (answer_of (S.finished f)) }
    {
        match self.ending() {
            Ok(()) => Next::End,
            Err(fault) => Next::of(fault),
        }
    }
}
