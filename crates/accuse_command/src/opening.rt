//! What accuses, read from the files that the words name.

ghost use Rattle.std.specs.Prelude.{◌≡◌, ◌≤◌, length, map};
ghost use Rattle.accuse_command.specs.AccuseWords.{accusing_said};
ghost use Rattle.accuse_command.specs.Due as D;

use crate::words::AccuseWords;
use accuser::{FilesFault, MOST_LOGS, SealedReport, accuse_files};
use file_commands::open_roots;
use grid_world::Session;
use run_frame::{Status, open_session};
use sealed_evidence::Roots;
use station::Shelf;
use std::alloc::Global;

/// What files of sealed frames show, and by whose roots: those of the session's players.
#[derive(Drop)]
pub(crate) struct Accusation {
    pub session: Session,
    pub roots: Roots,
    pub report: SealedReport,
}

/// The status that tells of a fault of the files of sealed frames.
fn status_of(fault: FilesFault) -> Status
    ensures { result ≡ D.status_of_files fault }
{
    match fault {
        FilesFault::BadSeal { file, at } => Status::BadSeal { file, at },
        FilesFault::Failed => Status::InputFault,
        FilesFault::Memory => Status::NoMemory,
    }
}

/// The report on the files of these names. The first that isn't all sealed frames decides: none
/// after it is read.
fn open_report<H: Shelf>(
    alloc: Global,
    shelf: &mut H,
    session: &Session,
    roots: &Roots,
    files: &[Vec<u8>],
) -> Result<SealedReport, Status>
    requires { length files.now ≤ MOST_LOGS }
    ensures { D.ReadsReport session.now roots.now (H.state shelf.old) (H.state shelf.new) (map (λ w. w.items) files.now) result }
{
    match accuse_files(alloc, shelf, session, roots, files) {
        Ok(report) => Ok(report),
        Err(fault) => Err(status_of(fault)),
    }
}

/// The roots and the report of the files after the session's.
fn open_after_session<H: Shelf>(
    alloc: Global,
    shelf: &mut H,
    session: Session,
    words: AccuseWords<'_>,
) -> Result<Accusation, Status>
    ensures { D.ReadsAfterSession (accusing_said words.entry) session (H.state shelf.old) (H.state shelf.new) result }
{
    let roots = open_roots(alloc, shelf, &session, words.roots)?;
    let report = open_report(alloc, shelf, &session, &roots, words.files)?;
    Ok(Accusation {
        session,
        roots,
        report,
    })
}

/// The session, the roots and the report of all the files. No file is read after one that is
/// refused.
pub(crate) fn open_accusation<H: Shelf>(
    alloc: Global,
    shelf: &mut H,
    words: AccuseWords<'_>,
) -> Result<Accusation, Status>
    ensures { D.OpensAccusation (accusing_said words.entry) (H.state shelf.old) (H.state shelf.new) result }
{
    let session = open_session(alloc, shelf, words.session)?;
    open_after_session(alloc, shelf, session, words)
}
