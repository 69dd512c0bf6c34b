//! A peer from the bytes of a log.

ghost use Rattle.std.specs.Prelude.{◌≡◌, ◌<◌, IfOk, option_map};
ghost use Rattle.definitions.specs.World.{players_of};
ghost use Rattle.definitions.specs.Honest.{IsHonest};
ghost use Rattle.old_log.specs.Resumed as R;

use crate::places::place_behind;
use crate::reading::read_old;
use definitions::limits::LONGEST_LOG;
use definitions::{LogWhy, PlayerId};
use grid_world::Session;
use peer_core::{Peer, ResumeFault};
use session_log::{LogFault, LogWriter};
use std::alloc::Global;

/// Why a peer can't go on from a log.
#[derive(Clone, Copy, Debug, PartialEq, Eq)]
pub enum OldFault {
    /// There was no memory for the entries or the peer.
    NoMemory,
    /// The log can't be used from this fault on.
    Bad(LogFault),
}

/// A peer that goes on from a log.
#[derive(Drop)]
pub struct Resumed {
    /// Its log is the entries before the log's first fault.
    pub peer: Peer,
    /// The byte, counted from 0, from which on the log is dropped, where it has a fault: that of the first entry that is
    /// torn, isn't chained to those before it, or is none of the owner's log. It is 0 where the log has its first byte
    /// alone, or that is no player's number, and None where the log ends behind an entry or has no bytes.
    pub dropped: Option<u32>,
    /// How many bytes of the log are kept: those of the entries that the peer has, with the
    /// owner's byte in front of them, and 0 where it has none.
    pub kept: u32,
    /// The writer that goes on with the log behind these entries. Nothing is hashed again for it.
    pub writer: LogWriter,
}

/// The byte where the fault begins, if there is one.
fn place_of(fault: Option<LogFault>) -> Option<u32>
    ensures { result ≡ option_map (λ f. f.at) fault }
{
    let fault = fault?;
    Some(fault.at)
}

/// A peer for this player of the session that goes on from the log with these bytes. The log's bytes from its first fault
/// on are dropped, and the peer replays the entries before it; a log without a whole entry is gone on from as an empty one.
///
/// These are refused, in this order: TooLong, at `LONGEST_LOG`, where the log has more bytes than that; NotReplayed, at 1, where
/// it has an entry and is another player's; NotReplayed, at the byte where the entry begins, where an entry may not follow
/// those before it. Nothing else is refused, but that memory may run out.
pub fn resume_from(
    alloc: Global,
    session: &Session,
    me: PlayerId,
    bytes: &[u8],
) -> Result<Resumed, OldFault>
    requires player { me < players_of session.now }
    ensures exact { R.Resumes session.now me bytes.now result }
    ensures honest { IfOk result (λ r. IsHonest session.now me r.peer.entries) }
{
    if bytes.len() > LONGEST_LOG {
        return Err(OldFault::Bad(LogFault {
            at: LONGEST_LOG as u32,
            why: LogWhy::TooLong,
        }));
    }
    let Ok(log) = read_old(alloc, session, me, bytes) else {
        return Err(OldFault::NoMemory);
    };
    let entries = log.entries.as_slice();
    if log.anothers {
        return Err(OldFault::Bad(LogFault {
            at: 1,
            why: LogWhy::NotReplayed,
        }));
    }
    match Peer::resume(alloc, session, me, entries) {
        Ok(peer) => Ok(Resumed {
            peer,
            dropped: place_of(log.fault),
            kept: log.kept,
            writer: log.writer,
        }),
        Err(ResumeFault::Memory) => Err(OldFault::NoMemory),
        Err(ResumeFault::NotReplayed(i)) => {
            let at = place_behind(session, me, &entries[..i as usize]);
            Err(OldFault::Bad(LogFault {
                at,
                why: LogWhy::NotReplayed,
            }))
        }
    }
}
