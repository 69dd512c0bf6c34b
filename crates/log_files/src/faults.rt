//! Why a log isn't taken whole.

ghost use Rattle.std.specs.Prelude.{◌≡◌};
ghost use Rattle.definitions.specs.declared.logs.LogWhy.TheVariants.{TooLong};
ghost use Rattle.session_log.specs.Reading.{fault_at};
ghost use Rattle.log_files.specs.declared.faults.FileFault.TheVariants.{Bad};

use definitions::LogWhy;
use definitions::limits::LONGEST_LOG;
use session_log::LogFault;

/// Why the file of a log wasn't taken whole.
#[derive(Clone, Copy)]
pub(crate) enum FileFault {
    /// It is no log: this is its first fault.
    Bad(LogFault),
    /// The shelf failed.
    Failed,
    /// The auditor's allocator had no memory.
    Memory,
}

impl From<LogFault> for FileFault {
    ghost from_gives = { λ fault of_file. of_file ≡ Bad fault };

    fn from(fault: LogFault) -> FileFault {
        FileFault::Bad(fault)
    }
}

/// The fault of a log that has more bytes than a log may have.
pub(crate) fn too_long() -> LogFault
    ensures { result ≡ fault_at LONGEST_LOG TooLong }
{
    LogFault {
        at: LONGEST_LOG as u32,
        why: LogWhy::TooLong,
    }
}
