//! What a log has before its first fault.

ghost use Rattle.std.specs.Prelude.{◌≡◌, ◌≤◌, IfOk, length};
ghost use Rattle.session_log.specs.Writing.{going_on};
ghost use Rattle.old_log.specs.Old as O;

use definitions::limits::LONGEST_LOG;
use definitions::{Entry, PlayerId};
use grid_world::Session;
use session_log::{LogFault, LogReader, LogWriter};
use std::alloc::{AllocError, Global};

/// A log before its first fault, where a player is to go on from it.
#[derive(Drop)]
pub(crate) struct OldLog {
    pub(crate) entries: Vec<Entry>,
    /// Whether it has entries, and they are another player's.
    pub(crate) anothers: bool,
    /// The fault with which it ends, if it has one.
    pub(crate) fault: Option<LogFault>,
    /// Where the entries are the player's: how many bytes they have, and a writer behind them.
    pub(crate) kept: u32,
    pub(crate) writer: LogWriter,
}

/// Whether the log has entries, and they are another player's.
fn is_anothers(me: PlayerId, owner: Option<PlayerId>, entries: &[Entry]) -> bool
    ensures { result ≡ O.is_anothers me owner entries.now }
{
    match owner {
        None => false,
        Some(owner) => owner != me && !entries.is_empty(),
    }
}

/// What is known of a log for this player, whose entries a reader gave.
fn old_of(me: PlayerId, reader: &LogReader, entries: Vec<Entry>, fault: Option<LogFault>) -> OldLog
    ensures entries { result.entries.items ≡ entries.items }
    ensures others { result.anothers ≡ O.is_anothers me reader.now.owner entries.items }
    ensures fault { result.fault ≡ fault }
    ensures kept { result.kept ≡ reader.now.at }
    ensures writer { result.writer ≡ going_on reader.now me }
{
    let anothers = is_anothers(me, reader.owner(), entries.as_slice());
    OldLog {
        entries,
        anothers,
        fault,
        kept: reader.used(),
        writer: reader.writer(me),
    }
}

/// Reads a log up to its first fault, for this player. All of it is hashed once.
pub(crate) fn read_old(
    alloc: Global,
    session: &Session,
    me: PlayerId,
    bytes: &[u8],
) -> Result<OldLog, AllocError>
    requires { length bytes.now ≤ LONGEST_LOG }
    ensures { IfOk result (O.IsOld session.now me bytes.now) }
{
    let mut reader = LogReader::new(session);
    let mut entries = Vec::new(alloc);
    'entries: loop {
        match reader.read(session, bytes) {
            Ok(Some(entry)) => entries.push(entry)?,
            Ok(None) => {
                let log = old_of(me, &reader, entries, None);
                return Ok(log);
            }
            Err(fault) => {
                let log = old_of(me, &reader, entries, Some(fault));
                return Ok(log);
            }
        }
    }
}
