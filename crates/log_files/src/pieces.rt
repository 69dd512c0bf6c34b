//! One piece of a log's file.

ghost use Rattle.std.specs.Prelude.{◌≡◌, ◌<◌, ◌≤◌, ◌+◌, length};
ghost use Rattle.auditor.specs.Taking.{IsFeeding, LeavesOthers};
ghost use Rattle.log_files.specs.Pieces.{TakesPiece};

use crate::faults::{FileFault, too_long};
use auditor::{Auditor, MOST_LOGS};
use definitions::limits::{LOG_FRONT, LONGEST_LOG};
use session_log::LogFeed;
use station::{Pull, Shelf};

/// Asks for the bytes of a log's file from this place on, as many as the buffer has room for, and
/// takes them. It says how many they were, or None where the file has ended.
///
/// Bad comes where with these bytes the file has more than a log may have, Failed where the shelf
/// failed, and Memory where the auditor had none.
pub(crate) fn take_piece<H: Shelf>(
    shelf: &mut H,
    name: &[u8],
    auditor: &mut Auditor,
    log: u32,
    feed: &mut LogFeed,
    at: usize,
    buf: &mut [u8],
) -> Result<Option<usize>, FileFault>
    requires log { log < MOST_LOGS }
    requires room { 0 < length buf.old }
    requires few { at + length buf.old ≤ LOG_FRONT }
    requires used { feed.old.used ≤ at }
    requires feeding { IsFeeding auditor.old log feed.old }
    ensures so { TakesPiece (H.state shelf.old) (H.state shelf.new) name.now auditor.old auditor.new log feed.old feed.new at result }
    ensures session { auditor.new.session ≡ auditor.old.session }
    ensures others { LeavesOthers auditor.old auditor.new log }
{
    match shelf.read_at(name, at as u64, buf) {
        Pull::Failed => Err(FileFault::Failed),
        Pull::Ended => Ok(None),
        Pull::Took(count) => {
            if count > LONGEST_LOG - at {
                return Err(FileFault::Bad(too_long()));
            }
            match auditor.take_bytes(log, feed, &buf[..count]) {
                Ok(()) => Ok(Some(count)),
                Err(_) => Err(FileFault::Memory),
            }
        }
    }
}
