//! A log is read.

ghost use Rattle.std.specs.Prelude.{◌≡◌, ◌+◌, ◌≤◌, length};

use crate::faults::LogFault;
use crate::finding::{Found, entry_at, first_chain};
use crate::writer::LogWriter;
use definitions::limits::LONGEST_LOG;
use definitions::{Entry, LogWhy, PlayerId};
use grid_world::Session;
use std::marker::Model;

/// What a reader of a log answers. The places are those of the bytes where the faulty entry begins.
#[derive(Clone, Copy, Debug, PartialEq, Eq)]
pub enum Next {
    /// The next entry.
    Entry(Entry),
    /// The bytes end behind an entry, or there are none.
    End,
    /// The bytes end before the entry does, or behind the owner's byte.
    Torn(u32),
    /// The entry isn't chained to those before it: its digest is another.
    BadChain(u32),
    /// The entry is none that the owner's log may have. Or at 0: the owner's byte is no player's
    /// number.
    BadEntry(u32),
}

impl Next {
    ghost use Rattle.std.specs.Prelude.{◌≡◌};
    ghost use Rattle.session_log.specs.Reading.{fault_in, next_by};

    /// The answer that tells of a reader's fault, which is none of TooLong and NotReplayed.
    pub(crate) fn of(fault: LogFault) -> Next
        ensures { result ≡ next_by fault.why fault.at }
    {
        match fault.why {
            LogWhy::Torn => Next::Torn(fault.at),
            LogWhy::BadChain => Next::BadChain(fault.at),
            LogWhy::TooLong | LogWhy::BadEntry | LogWhy::NotReplayed => Next::BadEntry(fault.at),
        }
    }

    /// The log's fault, where the answer tells of one: None comes exactly with an entry and at the
    /// end.
    pub fn fault(&self) -> Option<LogFault>
        ensures { result ≡ fault_in self.now }
    {
        let (at, why) = match *self {
            Next::Entry(_) | Next::End => return None,
            Next::Torn(at) => (at, LogWhy::Torn),
            Next::BadChain(at) => (at, LogWhy::BadChain),
            Next::BadEntry(at) => (at, LogWhy::BadEntry),
        };
        Some(LogFault { at, why })
    }
}

/// A reader of a log of a session.
#[derive(Drop)]
pub struct LogReader {
    owner: Option<PlayerId>,
    at: u32,
    // the digest of the last entry, or the session's id
    chain: [u8; 32],
    // how the log ended, once it has
    said: Option<Result<(), LogFault>>,
}

impl Model for LogReader {
    ghost use Rattle.session_log.specs.Reading.{LogReading};

    ghost Value = { LogReading };

    ghost view = { λ r. record { owner = r.owner; at = r.at; chain = r.chain; said = r.said } };
}

impl LogReader {
    ghost use Rattle.std.specs.Prelude.{◌≡◌, ◌+◌, ◌≤◌, ◌<◌, ◌^◌, length, Err, IfSome};
    ghost use Rattle.session_log.specs.Finding.{IsWithin};
    ghost use Rattle.session_log.specs.Reading as R;
    ghost use Rattle.session_log.specs.Writing.{going_on};

    /// A reader of a log of the session, of which it read nothing yet.
    pub fn new(session: &Session) -> LogReader
        ensures { result ≡ R.log_at_start session.now.id }
    {
        LogReader {
            owner: None,
            at: 0,
            chain: *session.id(),
            said: None,
        }
    }

    /// Whose log it is. None comes exactly before the owner's byte was read.
    pub fn owner(&self) -> Option<PlayerId>
        ensures { result ≡ self.now.owner }
    {
        self.owner
    }

    /// The log has ended so, from now on.
    fn end(&mut self, end: Result<(), LogFault>) -> Result<Option<Entry>, LogFault>
        ensures reader { self.new ≡ (R.ended self.old end).reader }
        ensures answer { result ≡ R.answer_of end }
    {
        self.said = Some(end);
        end?;
        Ok(None)
    }

    /// The log has this fault, from now on.
    fn fail(&mut self, at: u32, why: LogWhy) -> Result<Option<Entry>, LogFault>
        ensures reader { self.new ≡ (R.ended self.old (Err (R.fault_at at why))).reader }
        ensures answer { result ≡ Err (R.fault_at at why) }
    {
        self.end(Err(LogFault { at, why }))
    }

    /// The answer to what stands where the owner's next entry begins, at this place.
    fn step_on(
        &mut self,
        owner: PlayerId,
        at: u32,
        found: Found,
        most: usize,
    ) -> Result<Option<Entry>, LogFault>
        requires few { at + most < 2 ^ 32 }
        requires within { IsWithin most found }
        requires before { self.old.at ≤ at + most }
        ensures reader { self.new ≡ (R.step_on self.old owner at found).reader }
        ensures answer { result ≡ (R.step_on self.old owner at found).answer }
        ensures kept { self.new.at ≤ at + most }
    {
        self.owner = Some(owner);
        match found {
            Found::Torn => self.fail(at, LogWhy::Torn),
            Found::Bad(why) => self.fail(at, why),
            Found::Whole(entry, count, digest) => {
                self.at = at + count as u32;
                self.chain = digest;
                Ok(Some(entry))
            }
        }
    }

    /// The answer where nothing was read yet.
    fn first(&mut self, session: &Session, bytes: &[u8]) -> Result<Option<Entry>, LogFault>
        requires few { length bytes.now ≤ LONGEST_LOG }
        requires within { self.old.at ≤ length bytes.now }
        ensures reader { self.new ≡ (R.first_step session.now self.old bytes.now).reader }
        ensures answer { result ≡ (R.first_step session.now self.old bytes.now).answer }
        ensures kept { self.new.at ≤ length bytes.now }
    {
        match bytes {
            [] => self.end(Ok(())),
            [owner, rest @ ..] => {
                if *owner >= session.players() {
                    self.owner = Some(*owner);
                    return self.fail(0, LogWhy::BadEntry);
                }
                if rest.is_empty() {
                    self.owner = Some(*owner);
                    return self.fail(0, LogWhy::Torn);
                }
                let chain = first_chain(&self.chain, *owner);
                let found = entry_at(session, *owner, &chain, rest);
                self.step_on(*owner, 1, found, rest.len())
            }
        }
    }

    /// The answer where an entry was read.
    fn further(
        &mut self,
        session: &Session,
        owner: PlayerId,
        bytes: &[u8],
    ) -> Result<Option<Entry>, LogFault>
        requires few { length bytes.now ≤ LONGEST_LOG }
        requires within { self.old.at ≤ length bytes.now }
        ensures reader { self.new ≡ (R.further_step session.now self.old owner bytes.now).reader }
        ensures answer { result ≡ (R.further_step session.now self.old owner bytes.now).answer }
        ensures kept { self.new.at ≤ length bytes.now }
    {
        let at = self.at as usize;
        if bytes.len() <= at {
            return self.end(Ok(()));
        }
        let rest = &bytes[at..];
        let found = entry_at(session, owner, &self.chain, rest);
        self.step_on(owner, self.at, found, rest.len())
    }

    /// The next entry of the log; none where the bytes end behind an entry, or there are none; or
    /// the log's first fault. The bytes are the same whole log at each call.
    ///
    /// An entry that begins at a byte is tried in this order: Torn where the bytes end before the
    /// entry does, BadChain where its digest is another than the one that chains it, BadEntry
    /// where the session or the owner may not have it. A log of one byte is torn at 0, if that is
    /// a player's number, and else has a BadEntry at 0, as each log of nobody. After the end or a
    /// fault every call answers the same. TooLong and NotReplayed never come.
    #[tactic(auto, unfolding(crate::specs::Reading::next_step))]
    pub fn read(&mut self, session: &Session, bytes: &[u8]) -> Result<Option<Entry>, LogFault>
        requires few { length bytes.now ≤ LONGEST_LOG }
        requires within { self.old.at ≤ length bytes.now }
        ensures reader { self.new ≡ (R.next_step session.now bytes.now self.old).reader }
        ensures answer { result ≡ (R.next_step session.now bytes.now self.old).answer }
        ensures kept { self.new.at ≤ length bytes.now }
        ensures still { IfSome self.old.said (λ end. (result ≡ R.answer_of end) × (self.new ≡ self.old)) }
    {
        if let Some(end) = self.said {
            end?;
            return Ok(None);
        }
        match self.owner {
            None => self.first(session, bytes),
            Some(owner) => self.further(session, owner, bytes),
        }
    }

    /// The next entry of the log, or why there is none: what [`LogReader::read`] answers, and
    /// when. After End or a fault every call answers the same.
    pub fn next(&mut self, session: &Session, bytes: &[u8]) -> Next
        requires few { length bytes.now ≤ LONGEST_LOG }
        requires within { self.old.at ≤ length bytes.now }
        ensures reader { self.new ≡ (R.next_step session.now bytes.now self.old).reader }
        ensures answer { result ≡ R.next_of (R.next_step session.now bytes.now self.old).answer }
        ensures kept { self.new.at ≤ length bytes.now }
        ensures still { IfSome self.old.said (λ end. (result ≡ R.next_of (R.answer_of end)) × (self.new ≡ self.old)) }
    {
        match self.read(session, bytes) {
            Ok(Some(entry)) => Next::Entry(entry),
            Ok(None) => Next::End,
            Err(fault) => Next::of(fault),
        }
    }

    /// How many bytes of the log the entries have that were read, with the owner's byte in front
    /// of them.
    pub fn used(&self) -> u32
        ensures { result ≡ self.now.at }
    {
        self.at
    }

    /// A writer that goes on with the log behind the entries that were read. It is the owner's,
    /// or, where none was read, any player's. Nothing is hashed for it.
    pub fn writer(&self, owner: PlayerId) -> LogWriter
        ensures { result ≡ going_on self.now owner }
    {
        LogWriter::behind(owner, self.at > 0, &self.chain)
    }
}
