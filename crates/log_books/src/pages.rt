//! How far one player's log came.

ghost use Rattle.std.specs.Prelude.{◌≡◌, ℕ, ◌≤◌, ◌<◌, ◌+◌, ◌-◌, length, IfOk, IfSome, OnOk};
ghost use Rattle.definitions.specs.World.{Game, players_of};
ghost use Rattle.session_log.specs.Fed.{IsFeedOf};
ghost use Rattle.session_log.specs.Feeding.{LogFeeding};
ghost use Rattle.auditor.specs.Audits.{AuditState, count_in, owner_in};
ghost use Rattle.auditor.specs.Taking.{IsFeeding, LeavesOthers};
ghost use Rattle.log_streams.specs.Streams.{Stream, no_stream, room_of, took};
ghost use Rattle.log_books.specs.Heeding as H;
ghost use Rattle.log_books.specs.Pages as P;

use agreed_turns::AgreedTurns;
use auditor::{Auditor, MOST_LOGS};
use definitions::limits::LONGEST_LOG;
use definitions::{Entry, PlayerId};
use grid_world::Session;
use session_log::{LogFault, LogFeed};
use std::alloc::AllocError;

/// How far a player's log came, whichever sockets brought it.
#[derive(Drop)]
pub struct Page {
    /// The reader of its entries.
    pub feed: LogFeed,
    /// How many bytes of the log came.
    pub count: u32,
    /// Whether a byte closed the player: nothing more is taken of its log.
    pub is_closed: bool,
}

/// Where a log is closed that has this fault, or none because its first byte is another player's.
fn closing_byte(fault: Option<LogFault>) -> u32
    ensures { result ≡ P.closing_byte fault }
{
    match fault {
        None => 0,
        Some(fault) => fault.at,
    }
}

impl Page {
    /// The page of a player of whose log nothing came.
    pub fn new(session: &Session) -> Page
        ensures { (a : AuditState) (q : ℕ) → count_in a q ≡ 0 → P.IsPageOf session.now a q no_stream result }
    {
        Page {
            feed: LogFeed::new(session),
            count: 0,
            is_closed: false,
        }
    }

    /// How many bytes of the log may still be taken.
    pub fn room(&self) -> u32
        ensures { (game : Game) (a : AuditState) (q : ℕ) (s : Stream) → P.IsPageOf game a q s self.now → result ≡ room_of s }
    {
        if self.is_closed {
            0
        } else {
            (LONGEST_LOG as u32).saturating_sub(self.count)
        }
    }

    /// Where the log was closed, if it was: the byte, counted from 0, from which on it can't be
    /// used, or from which on no more of it is taken.
    pub fn closed(&self) -> Option<u32>
        ensures { (game : Game) (a : AuditState) (q : ℕ) (s : Stream) → P.IsPageOf game a q s self.now → result ≡ P.closed_at game s }
    {
        if self.is_closed {
            return Some(closing_byte(self.feed.fault()));
        }
        if self.count == LONGEST_LOG as u32 {
            Some(self.count)
        } else {
            None
        }
    }

    /// Whether these are the first bytes of the log, and of another player.
    fn is_others(&self, player: PlayerId, bytes: &[u8]) -> bool
        requires { 0 < length bytes.now }
        ensures { result ≡ P.begins_others self.now player bytes.now }
    {
        self.count == 0 && bytes[0] != player
    }
}

/// Feeds the bytes of the piece from this place on, counted from 0. The auditor takes the entries
/// that end in them, as many as the room has places for, and the agreed turns heed them: the place
/// after them, or none where these were all.
fn take_on(
    auditor: &mut Auditor,
    agreed: &mut AgreedTurns,
    player: PlayerId,
    feed: &mut LogFeed,
    piece: &[u8],
    at: usize,
    room: &mut [Entry],
) -> Result<Option<usize>, AllocError>
    requires log { player < MOST_LOGS }
    requires player { player < players_of agreed.old.game }
    requires game { agreed.old.game ≡ auditor.old.session }
    requires at { at ≤ length piece.now }
    requires few { feed.old.used + (length piece.now - at) ≤ LONGEST_LOG }
    requires feeding { IsFeeding auditor.old player feed.old }
    requires room { 0 < length room.old }
    ensures next { IfOk result (λ o. H.ComesOn auditor.old.session auditor.old auditor.new agreed.old agreed.new player feed.old feed.new piece.now at o) }
    ensures used { IfOk result (λ o. IfSome o (λ next. (at < next) × (next ≤ length piece.now) × (feed.new.used ≡ feed.old.used + (next - at)))) }
    ensures within { feed.new.used ≤ feed.old.used + (length piece.now - at) }
    ensures feeding { OnOk result (IsFeeding auditor.new player feed.new) }
    ensures session { auditor.new.session ≡ auditor.old.session }
    ensures game { agreed.new.game ≡ agreed.old.game }
    ensures owner { owner_in auditor.new player ≡ feed.new.owner }
    ensures others { LeavesOthers auditor.old auditor.new player }
    ensures room { length room.new ≡ length room.old }
{
    let batch = auditor.take_next(u32::from(player), feed, piece, at, room)?;
    agreed.heed(auditor.got(), auditor.made(), player, &room[..batch.count]);
    if batch.count < room.len() {
        return Ok(None);
    }
    Ok(Some(batch.at))
}

/// Feeds the bytes of the player's log that come next. The auditor takes the entries that end in
/// them, and the agreed turns heed them, as many at a time as the room has places for.
fn take_bytes(
    auditor: &mut Auditor,
    agreed: &mut AgreedTurns,
    player: PlayerId,
    feed: &mut LogFeed,
    bytes: &[u8],
    room: &mut [Entry],
) -> Result<(), AllocError>
    requires log { player < MOST_LOGS }
    requires player { player < players_of agreed.old.game }
    requires game { agreed.old.game ≡ auditor.old.session }
    requires places { 0 < length room.old }
    requires few { feed.old.used + length bytes.now ≤ LONGEST_LOG }
    requires feeding { IsFeeding auditor.old player feed.old }
    ensures all { OnOk result ((f : LogFeeding) → IsFeedOf feed.old f → H.ComesAll auditor.old.session auditor.old auditor.new agreed.old agreed.new player feed.old feed.new bytes.now f) }
    ensures within { feed.new.used ≤ feed.old.used + length bytes.now }
    ensures feeding { OnOk result (IsFeeding auditor.new player feed.new) }
    ensures session { auditor.new.session ≡ auditor.old.session }
    ensures game { agreed.new.game ≡ agreed.old.game }
    ensures owner { owner_in auditor.new player ≡ feed.new.owner }
    ensures others { LeavesOthers auditor.old auditor.new player }
{
    let mut at = 0;
    'batches: while let Some(next) = take_on(auditor, agreed, player, feed, bytes, at, room)? {
        at = next;
    }
    Ok(())
}

/// Bytes came of the player's log, one at least, and no more than may still be taken. They are fed
/// to its page, the auditor takes the entries that end in them, and the agreed turns heed them. The
/// room is where these entries stand until then. An error comes where the auditor has no memory.
pub fn take(
    auditor: &mut Auditor,
    agreed: &mut AgreedTurns,
    page: &mut Page,
    player: PlayerId,
    bytes: &[u8],
    room: &mut [Entry],
) -> Result<(), AllocError>
    requires log { player < MOST_LOGS }
    requires player { player < players_of agreed.old.game }
    requires game { agreed.old.game ≡ auditor.old.session }
    requires places { 0 < length room.old }
    requires some { 0 < length bytes.now }
    requires room { page.old.count + length bytes.now ≤ LONGEST_LOG }
    requires used { page.old.feed.used ≤ page.old.count }
    requires feeding { IsFeeding auditor.old player page.old.feed }
    ensures goes { OnOk result ((s : Stream) → P.IsPageOf auditor.old.session auditor.old player s page.old → P.GoesOn auditor.old.session auditor.old auditor.new player s (took auditor.old.session player s bytes.now) page.new) }
    ensures heeds { OnOk result ((s : Stream) → P.IsPageOf auditor.old.session auditor.old player s page.old → H.IsOwn auditor.old.session player s → H.Heeds auditor.old.session auditor.old agreed.old agreed.new player s (took auditor.old.session player s bytes.now)) }
    ensures game { agreed.new.game ≡ agreed.old.game }
{
    if page.is_others(player, bytes) {
        page.is_closed = true;
        return Ok(());
    }
    take_bytes(auditor, agreed, player, &mut page.feed, bytes, room)?;
    page.count += bytes.len() as u32;
    page.is_closed = page.feed.fault().is_some();
    Ok(())
}
