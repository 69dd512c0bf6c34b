//! What the logs of a session show is printed.

ghost use Rattle.std.specs.Prelude.{◌≡◌, ℕ, List, Option, true};
ghost use Rattle.definitions.specs.declared.logs.Entry.{Entry};
ghost use Rattle.auditor.specs.Agreed.{AreOwned};
ghost use Rattle.auditor.specs.Audits.{StandsFor};
ghost use Rattle.file_commands.specs.Audit as A;
ghost use Rattle.run_frame.specs.Frame.{Ran};

use crate::audit_printing::put_report;
use auditor::Auditor;
use definitions::Finding;
use grid_world::Session;
use run_frame::Status;
use station::Sink;
use std::alloc::Global;

/// How the command ends, by the findings.
fn status_by(found: &[Finding]) -> Status
    ensures { result ≡ A.status_by found.now }
{
    match found {
        [] => Status::Done,
        [_, ..] => Status::Caught,
    }
}

/// Prints what the logs show that the auditor took: each finding with the evidence that shows it, how many turns of each player the
/// logs agree on, and where each player stands at the end. Memory for the evidence is taken after the first byte too: where it is
/// wanting, a front of the text was written.
///
/// The auditor is of this session, and each log of which it was told an owner is one that the owner may have written. Of other logs
/// it may print anything.
pub fn put_audit<O: Sink>(
    alloc: Global,
    auditor: &Auditor,
    session: &Session,
    out: &mut O,
) -> Status
    ensures { (owners : List (Option ℕ)) (logs : List (List Entry)) → StandsFor session.now owners logs auditor.now → AreOwned session.now owners logs → Ran (O.state out.old) (O.state out.new) (A.audit_answer session.now owners logs) true ⊥ ⊥ result }
{
    session.facts();
    let Ok(report) = auditor.report(alloc) else {
        return Status::NoMemory;
    };
    match put_report(alloc, auditor, session, &report, out) {
        Ok(()) => status_by(report.findings()),
        Err(fault) => Status::from(fault),
    }
}
