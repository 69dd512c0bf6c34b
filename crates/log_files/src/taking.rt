//! A log from its file.

ghost use Rattle.std.specs.Prelude.{◌≡◌, ◌<◌, ◌≤◌, length};
ghost use Rattle.log_files.specs.Logs.{taken_of};
ghost use Rattle.log_files.specs.Taken.{IsUntaken, TakesLog};

use crate::faults::FileFault;
use crate::pieces::take_piece;
use auditor::{Auditor, MOST_LOGS};
use definitions::LogWhy;
use definitions::limits::LOG_FRONT;
use grid_world::Session;
use session_log::LogFeed;
use station::Shelf;

/// What became of a log's file.
#[derive(Clone, Copy, Debug, PartialEq, Eq)]
pub enum LogTaken {
    /// All of the log was taken.
    Whole,
    /// It is no log, from this byte on, counted from 0: the begin of the entry that is torn, isn't chained to those before it, or is
    /// none of the owner's log. It is 0 where the file has its first byte alone, or that is no player's number, and `LONGEST_LOG`
    /// where it has more bytes than that, whatever stands in them.
    Bad { at: u32, why: LogWhy },
    /// The shelf failed. A name that isn't there is such a fault.
    Failed,
    /// The auditor's allocator had no memory.
    Memory,
}

/// Does what [`take_log`] does, and says why the file wasn't taken whole, where it wasn't.
pub(crate) fn take_file<H: Shelf>(
    shelf: &mut H,
    name: &[u8],
    session: &Session,
    auditor: &mut Auditor,
    log: u32,
    buf: &mut [u8],
) -> Result<(), FileFault>
    requires log { log < MOST_LOGS }
    requires room { 0 < length buf.old }
    requires session { auditor.old.session ≡ session.now }
    requires untaken { IsUntaken auditor.old log }
    ensures { TakesLog session.now (H.state shelf.old) (H.state shelf.new) name.now auditor.old auditor.new log (taken_of result) }
{
    let mut feed = LogFeed::new(session);
    let mut at = 0;
    'pieces: loop {
        let room = buf.len().min(LOG_FRONT - at);
        match take_piece(shelf, name, auditor, log, &mut feed, at, &mut buf[..room])? {
            Some(count) => at += count,
            None => {
                feed.ending()?;
                return Ok(());
            }
        }
    }
}

/// Reads the file of that name from its front to its end, as many bytes at a time as the buffer has room for, and takes them as the
/// log of this number, of which the auditor has nothing yet. Of a file that is too long it reads one byte more than a log may have.
///
/// Whole comes exactly where the file was read to its end and is a log of the session, or empty: then the auditor stands for the logs
/// with the file's entries at the end of that log, which is the file's owner's. Bad comes exactly where it was read so far that it is
/// none, and names the first fault, TooLong before any other, so that reading goes on after a fault. Failed comes exactly where the
/// shelf counts a fault in this call, and Memory where the auditor's allocator has none. In these three cases the first of the file's
/// entries were taken. Other logs are left alone.
pub fn take_log<H: Shelf>(
    shelf: &mut H,
    name: &[u8],
    session: &Session,
    auditor: &mut Auditor,
    log: u32,
    buf: &mut [u8],
) -> LogTaken
    requires log { log < MOST_LOGS }
    requires room { 0 < length buf.old }
    requires session { auditor.old.session ≡ session.now }
    requires untaken { IsUntaken auditor.old log }
    ensures { TakesLog session.now (H.state shelf.old) (H.state shelf.new) name.now auditor.old auditor.new log result }
{
    match take_file(shelf, name, session, auditor, log, buf) {
        Ok(()) => LogTaken::Whole,
        Err(FileFault::Bad(fault)) => LogTaken::Bad {
            at: fault.at,
            why: fault.why,
        },
        Err(FileFault::Failed) => LogTaken::Failed,
        Err(FileFault::Memory) => LogTaken::Memory,
    }
}
