//! What files of sealed frames show is printed.

ghost use Rattle.std.specs.Prelude.{◌≡◌, ℕ, List, true};
ghost use Rattle.definitions.specs.World.{Game};
ghost use Rattle.accuser.specs.Accused.{Accuses};
ghost use Rattle.file_commands.specs.Audit.{status_by};
ghost use Rattle.run_frame.specs.Frame.{Ran};
ghost use Rattle.accuse_command.specs.Accuse as A;

use crate::printing::put_report;
use accuser::{Finding, SealedReport};
use run_frame::Status;
use station::Sink;
use std::alloc::Global;

/// How the command ends, by the findings.
fn status_by(found: &[Finding]) -> Status
    ensures { result ≡ status_by found.now }
{
    match found {
        [] => Status::Done,
        [_, ..] => Status::Caught,
    }
}

/// Prints what the report lists: each finding with the evidence that shows it to whoever has the
/// session and the roots. Where memory is wanting, a front of the text was written.
pub(crate) fn put_accusation<O: Sink>(alloc: Global, report: &SealedReport, out: &mut O) -> Status
    requires { A.IsOnFiles report.now }
    ensures { (game : Game) (roots files : List (List ℕ)) → Accuses game roots files report.now → Ran (O.state out.old) (O.state out.new) (A.accused_answer game roots files) true ⊥ ⊥ result }
{
    match put_report(alloc, report, out) {
        Ok(()) => status_by(report.findings()),
        Err(status) => status,
    }
}
