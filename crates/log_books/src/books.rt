//! The books of a session.

ghost use Rattle.std.specs.Prelude.{◌≡◌, ◌≤◌, ◌<◌, false, true, length, Some, slice_get, IfOk, OnOk, OnErr};
ghost use Rattle.definitions.specs.World.{players_of};
ghost use Rattle.auditor.specs.Audits.{StandsFor};
ghost use Rattle.log_books.specs.Books as B;
ghost use Rattle.log_books.specs.Pages.{closed_at};
ghost use Rattle.log_streams.specs.Streams.{Stream, count_at, entries_of, lists_of, no_streams, owners_of, room_at, took_of};

use crate::pages::{Page, take};
use agreed_turns::AgreedTurns;
use auditor::{Auditor, BATCH, Exhibit, Report};
use definitions::{Entry, Finding, PlayerId};
use grid_world::Session;
use record::Record;
use session_log::NO_ENTRY;
use std::alloc::{AllocError, Global};
use std::marker::Model;

/// The logs of all players as they come in pieces, and what they show together.
#[derive(Drop)]
pub struct Books {
    pub(crate) session: Session,
    pub(crate) auditor: Auditor,
    // the turns on which the logs agree, as far as they came
    pub(crate) agreed: AgreedTurns,
    pub(crate) pages: Vec<Page>,
    // where the entries of a piece stand until they are taken: made once, since a piece may be a byte
    room: [Entry; BATCH],
    // what came of whom, piece by piece, which only proofs read
    took: Record,
    // whether the auditor had no memory for what came
    is_out_of_memory: bool,
}

impl Model for Books {
    ghost use Rattle.log_books.specs.Books.{BooksState, streams_by, StandIfWhole};

    ghost Value = { BooksState };

    ghost view = { λ b. record { game = b.session; streams = streams_by b.session b.took.notes; is_out_of_memory = b.is_out_of_memory } };

    ghost invariant = { λ b. StandIfWhole b.session (streams_by b.session b.took.notes) b.is_out_of_memory b.auditor b.agreed b.pages.items };
}

/// A page for each player.
fn make_pages(alloc: Global, session: &Session) -> Result<Vec<Page>, AllocError>
    ensures { IfOk result (λ ps. B.AreNew session.now ps.items) }
{
    let mut pages = Vec::with_capacity(alloc, usize::from(session.players()))?;
    for _ in 0..session.players() {
        pages.push(Page::new(session))?;
    }
    Ok(pages)
}

impl Books {
    /// The books before anything came of any log. The allocator is kept. An error comes where
    /// memory is wanting.
    pub fn new(alloc: Global, session: &Session) -> Result<Books, AllocError>
        ensures { IfOk result (λ b. b ≡ record { game = session.now; streams = no_streams session.now; is_out_of_memory = false }) }
    {
        let pages = make_pages(alloc, session)?;
        let own = session.copy(alloc)?;
        let auditor = Auditor::new(alloc, session)?;
        let agreed = AgreedTurns::new(alloc, session)?;
        Ok(Books {
            session: own,
            auditor,
            agreed,
            pages,
            room: [NO_ENTRY; BATCH],
            took: Record::new(),
            is_out_of_memory: false,
        })
    }

    /// There is a stream for each player, and no others. It does nothing: its clause is that fact.
    pub fn facts(&self)
        requires { self.now.is_out_of_memory ≡ false }
        ensures { length self.now.streams ≡ players_of self.now.game }
    {
        let _ = &self.pages;
    }

    /// The session.
    pub fn session(&self) -> &Session
        ensures { result.now ≡ self.now.game }
    {
        &self.session
    }

    /// How many bytes of the player's log may still be taken: none, once a byte of it closed the
    /// player.
    pub fn room(&self, player: PlayerId) -> u32
        requires player { player < players_of self.now.game }
        requires whole { self.now.is_out_of_memory ≡ false }
        ensures { result ≡ room_at (slice_get self.now.streams player) }
    {
        self.pages[usize::from(player)].room()
    }

    /// How many bytes of the player's log came.
    pub fn count(&self, player: PlayerId) -> u32
        requires player { player < players_of self.now.game }
        requires whole { self.now.is_out_of_memory ≡ false }
        ensures { result ≡ count_at (slice_get self.now.streams player) }
    {
        self.pages[usize::from(player)].count
    }

    /// How many whole entries of the player's log came, before its first fault.
    pub fn entries(&self, player: PlayerId) -> u32
        requires player { player < players_of self.now.game }
        requires whole { self.now.is_out_of_memory ≡ false }
        ensures { (s : Stream) → slice_get self.now.streams player ≡ Some s → result ≡ length (entries_of self.now.game s) }
    {
        self.auditor.count(u32::from(player))
    }

    /// Where the player's log was closed, if it was. It is the byte, counted from 0, where the entry
    /// begins that can't be used; 0 where the first byte is another player's; or the number of
    /// bytes of a log that has as many as a log may have.
    pub fn closed(&self, player: PlayerId) -> Option<u32>
        requires player { player < players_of self.now.game }
        requires whole { self.now.is_out_of_memory ≡ false }
        ensures { (s : Stream) → slice_get self.now.streams player ≡ Some s → result ≡ closed_at self.now.game s }
    {
        self.pages[usize::from(player)].closed()
    }

    /// Bytes came of the player's log, one at least, and no more than may still be taken. An error
    /// comes where the allocator that the books keep has no memory; after it nothing more is
    /// taken.
    pub fn take(&mut self, player: PlayerId, bytes: &[u8]) -> Result<(), AllocError>
        requires player { player < players_of self.old.game }
        requires whole { self.old.is_out_of_memory ≡ false }
        requires some { 0 < length bytes.now }
        requires room { length bytes.now ≤ room_at (slice_get self.old.streams player) }
        ensures all { OnOk result (self.new ≡ record self.old { streams = took_of self.old.game player bytes.now self.old.streams }) }
        ensures memory { OnErr result (self.new.is_out_of_memory ≡ true) }
        ensures game { self.new.game ≡ self.old.game }
    {
        self.took.note(&[u64::from(player)], &[], bytes);
        let taken = take(
            &mut self.auditor,
            &mut self.agreed,
            &mut self.pages[usize::from(player)],
            player,
            bytes,
            &mut self.room,
        );
        self.is_out_of_memory = taken.is_err();
        taken
    }

    /// The auditor that took the entries, which stands for the lists that the streams give.
    pub fn auditor(&self) -> &Auditor
        ensures { self.now.is_out_of_memory ≡ false → StandsFor self.now.game (owners_of self.now.game self.now.streams) (lists_of self.now.game self.now.streams) result.now }
    {
        &self.auditor
    }

    /// What the logs show together, as far as they came. It takes memory from `alloc`, and an
    /// error comes where that is wanting.
    pub fn report(&self, alloc: Global) -> Result<Report, AllocError>
        ensures { IfOk result (λ r. self.now.is_out_of_memory ≡ false → B.ReportsOn self.now.game self.now.streams r) }
    {
        self.auditor.report(alloc)
    }

    /// The frames by which a finding of the report is shown. Whoever has the session can judge
    /// them without the logs. An error comes where memory is wanting.
    pub fn exhibit(&self, alloc: Global, finding: &Finding) -> Result<Exhibit, AllocError>
        ensures { IfOk result (λ x. self.now.is_out_of_memory ≡ false → B.ExhibitsOn self.now.game self.now.streams finding.now x) }
    {
        self.auditor.exhibit(alloc, finding)
    }
}
