//! The session and the logs of files that are to be audited.

ghost use Rattle.std.specs.Prelude.{◌≡◌, ◌≤◌, length, map};
ghost use Rattle.file_commands.specs.Audits.{OpensAudit, TakesAll};

use auditor::{Auditor, MOST_LOGS};
use grid_world::Session;
use line_io::piece_buffer;
use log_files::{LogsTaken, take_logs};
use run_frame::{Status, open_session};
use station::Shelf;
use std::alloc::Global;

/// A session, and an auditor that took logs of it.
#[derive(Drop)]
pub(crate) struct Audited {
    pub session: Session,
    pub auditor: Auditor,
}

/// An auditor that took the logs of these files, each from its front to its end. The first that is no log decides: none behind it is
/// read.
fn take_all<H: Shelf>(
    alloc: Global,
    shelf: &mut H,
    session: &Session,
    names: &[Vec<u8>],
) -> Result<Auditor, Status>
    requires room { length names.now ≤ MOST_LOGS }
    ensures { TakesAll session.now (H.state shelf.old) (H.state shelf.new) (map (λ w. w.items) names.now) result }
{
    let mut auditor = Auditor::new(alloc, session)?;
    let mut buf = piece_buffer(alloc)?;
    match take_logs(shelf, names, session, &mut auditor, 0, buf.as_mut_slice()) {
        LogsTaken::Whole => Ok(auditor),
        LogsTaken::Bad { log, fault } => Err(Status::BadLog {
            log,
            at: fault.at,
            why: fault.why,
        }),
        LogsTaken::Failed => Err(Status::InputFault),
        LogsTaken::Memory => Err(Status::NoMemory),
    }
}

/// The session of a file, and an auditor that took the logs of the others. They are left alone where the first has no session.
pub(crate) fn open_audit<H: Shelf>(
    alloc: Global,
    shelf: &mut H,
    session: &[u8],
    logs: &[Vec<u8>],
) -> Result<Audited, Status>
    requires room { length logs.now ≤ MOST_LOGS }
    ensures { OpensAudit (H.state shelf.old) (H.state shelf.new) session.now (map (λ w. w.items) logs.now) result }
{
    let session = open_session(alloc, shelf, session)?;
    let auditor = take_all(alloc, shelf, &session, logs)?;
    Ok(Audited { session, auditor })
}
