//! Several logs, each from its file.

ghost use Rattle.std.specs.Prelude.{◌≡◌, ◌<◌, ◌≤◌, ◌+◌, ℕ, length, map};
ghost use Rattle.log_files.specs.Several.{TakesFiles, stopped_by};
ghost use Rattle.log_files.specs.Taken.{IsUntaken};

use crate::faults::FileFault;
use crate::taking::take_file;
use auditor::{Auditor, MOST_LOGS};
use grid_world::Session;
use session_log::LogFault;
use station::Shelf;

/// What became of the files of several logs.
#[derive(Clone, Copy, Debug, PartialEq, Eq)]
pub enum LogsTaken {
    /// All of them are logs, and were taken.
    Whole,
    /// The log of this number is the first that is none: this is its first fault, as for one log.
    Bad { log: u32, fault: LogFault },
    /// The shelf failed, before a file that is no log was found.
    Failed,
    /// The auditor's allocator had no memory, before a file that is no log was found.
    Memory,
}

impl LogsTaken {
    /// The answer where the file of the log of this number wasn't taken whole.
    fn of(log: u32, fault: FileFault) -> LogsTaken
        ensures { result ≡ stopped_by log fault }
    {
        match fault {
            FileFault::Bad(fault) => LogsTaken::Bad { log, fault },
            FileFault::Failed => LogsTaken::Failed,
            FileFault::Memory => LogsTaken::Memory,
        }
    }
}

/// Reads the files of these names, one behind the other and each from its front to its end, and takes them as the logs from this number
/// on, of which the auditor has nothing yet. The first that is no log decides: none behind it is read. So does a fault of the
/// shelf, or want of memory.
pub fn take_logs<H: Shelf>(
    shelf: &mut H,
    names: &[Vec<u8>],
    session: &Session,
    auditor: &mut Auditor,
    number: u32,
    buf: &mut [u8],
) -> LogsTaken
    requires few { number + length names.now ≤ MOST_LOGS }
    requires room { 0 < length buf.old }
    requires session { auditor.old.session ≡ session.now }
    requires untaken { (i : ℕ) → number ≤ i → IsUntaken auditor.old i }
    ensures { TakesFiles session.now (H.state shelf.old) (H.state shelf.new) (map (λ w. w.items) names.now) auditor.old auditor.new number result }
{
    match names {
        [] => LogsTaken::Whole,
        [name, rest @ ..] => {
            match take_file(shelf, name.as_slice(), session, auditor, number, buf) {
                Ok(()) => take_logs(shelf, rest, session, auditor, number + 1, buf),
                Err(fault) => LogsTaken::of(number, fault),
            }
        }
    }
}
