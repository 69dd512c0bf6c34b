//! A peer from the bytes of a log that is to be whole.

ghost use Rattle.std.specs.Prelude.{◌≡◌, ◌<◌, IfErr, IfOk};
ghost use Rattle.definitions.specs.World.{players_of};
ghost use Rattle.definitions.specs.Honest.{IsHonest};
ghost use Rattle.old_log.specs.declared.resuming.OldFault.TheVariants.{NoMemory};
ghost use Rattle.old_log.specs.Old as O;
ghost use Rattle.old_log.specs.Resumed as R;

use crate::reading::read_old;
use crate::resuming::{OldFault, resume_from};
use definitions::limits::LONGEST_LOG;
use definitions::{LogWhy, PlayerId};
use grid_world::Session;
use peer_core::Peer;
use session_log::LogFault;
use std::alloc::Global;

/// The log's first fault, if it has one.
fn fault_in(
    alloc: Global,
    session: &Session,
    me: PlayerId,
    bytes: &[u8],
) -> Result<Option<LogFault>, OldFault>
    ensures found { IfOk result (λ fault. fault ≡ O.log_fault session.now bytes.now) }
    ensures lacked { IfErr result (λ fault. fault ≡ NoMemory) }
{
    if bytes.len() > LONGEST_LOG {
        return Ok(Some(LogFault {
            at: LONGEST_LOG as u32,
            why: LogWhy::TooLong,
        }));
    }
    match read_old(alloc, session, me, bytes) {
        Ok(log) => Ok(log.fault),
        Err(_) => Err(OldFault::NoMemory),
    }
}

/// A peer for this player of the session whose log is all of the log with these bytes.
///
/// These are refused, in this order: TooLong, at `LONGEST_LOG`, where the log has more bytes than
/// that; its first fault, Torn, BadChain or BadEntry, at the byte where the entry begins; and what
/// [`resume_from`] refuses. Nothing else is refused, but that memory may run out. The log is read
/// twice: first for its fault, and then to be replayed.
pub fn resume_whole(
    alloc: Global,
    session: &Session,
    me: PlayerId,
    bytes: &[u8],
) -> Result<Peer, OldFault>
    requires player { me < players_of session.now }
    ensures exact { R.ResumesWhole session.now me bytes.now result }
    ensures honest { IfOk result (λ peer. IsHonest session.now me peer.entries) }
{
    match fault_in(alloc, session, me, bytes)? {
        Some(fault) => Err(OldFault::Bad(fault)),
        None => {
            let resumed = resume_from(alloc, session, me, bytes)?;
            Ok(resumed.peer)
        }
    }
}
