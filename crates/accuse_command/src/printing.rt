//! The text of an accusation, written piece by piece.

ghost use Rattle.std.specs.Prelude.{◌≡◌, ℕ, List, IfOk, length};
ghost use Rattle.definitions.specs.Lists.{EachIs};
ghost use Rattle.definitions.specs.World.{Game};
ghost use Rattle.definition_laws.specs.Members.{Has};
ghost use Rattle.accuser.specs.Accused.{Accuses, sealed_of};
ghost use Rattle.accuser.specs.SealedReports.{found_in};
ghost use Rattle.accuse_command.specs.Accuse as A;
ghost use Rattle.accuse_command.specs.Printing.{Prints};

use accuser::{Finding, SealedExhibit, SealedReport};
use file_commands::finding_line;
use line_io::put;
use report_lines::end_line;
use run_frame::Status;
use sealed_text::{MOST_SEALED_FRAMES, print_sealed};
use station::Sink;
use std::alloc::{AllocError, Global};

/// The text of the exhibit, and none where it has more frames than a text may say.
fn text_of(alloc: Global, sealed: &SealedExhibit) -> Result<Vec<u8>, AllocError>
    requires { length sealed.now.seals ≡ length sealed.now.exhibit.frames }
    ensures { IfOk result (λ text. text.items ≡ A.text_if_few sealed.now) }
{
    if sealed.exhibit.frames.as_slice().len() > MOST_SEALED_FRAMES {
        return Ok(Vec::new(alloc));
    }
    print_sealed(alloc, sealed)
}

/// The text of the exhibit by which the finding is shown.
fn evidence_text(
    alloc: Global,
    report: &SealedReport,
    finding: &Finding,
) -> Result<Vec<u8>, AllocError>
    requires listed { Has (found_in report.now) finding.now }
    requires accuses { A.IsOnFiles report.now }
    ensures { IfOk result (λ text. (game : Game) (roots files : List (List ℕ)) → Accuses game roots files report.now → text.items ≡ A.text_if_few (sealed_of game roots files finding.now)) }
{
    let sealed = report.sealed(alloc, finding)?;
    text_of(alloc, &sealed)
}

/// Writes a finding and its evidence; nothing where memory is wanting.
fn put_finding<O: Sink>(
    alloc: Global,
    report: &SealedReport,
    finding: &Finding,
    out: &mut O,
) -> Result<(), Status>
    requires listed { Has (found_in report.now) finding.now }
    requires accuses { A.IsOnFiles report.now }
    ensures { (game : Game) (roots files : List (List ℕ)) → Accuses game roots files report.now → Prints (O.state out.old) (O.state out.new) (A.accused_text game roots files finding.now) result }
{
    let evidence = evidence_text(alloc, report, finding)?;
    put(out, finding_line(finding).as_slice())?;
    put(out, &evidence)?;
    Ok(())
}

/// Writes these findings, each with its evidence. Of one exhibit alone is memory held at a time.
fn put_findings<O: Sink>(
    alloc: Global,
    report: &SealedReport,
    found: &[Finding],
    out: &mut O,
) -> Result<(), Status>
    requires listed { EachIs (Has (found_in report.now)) found.now }
    requires accuses { A.IsOnFiles report.now }
    ensures { (game : Game) (roots files : List (List ℕ)) → Accuses game roots files report.now → Prints (O.state out.old) (O.state out.new) (A.all_accused_text game roots files found.now) result }
{
    'findings: for finding in found {
        put_finding(alloc, report, finding, out)?;
    }
    Ok(())
}

/// Writes what the report tells: the findings with their evidence, and that this is the end.
#[tactic(auto, unfolding(crate::specs::Accuse::accuse_text))]
pub(crate) fn put_report<O: Sink>(
    alloc: Global,
    report: &SealedReport,
    out: &mut O,
) -> Result<(), Status>
    requires { A.IsOnFiles report.now }
    ensures { (game : Game) (roots files : List (List ℕ)) → Accuses game roots files report.now → Prints (O.state out.old) (O.state out.new) (A.accuse_text game roots files) result }
{
    put_findings(alloc, report, report.findings(), out)?;
    put(out, end_line())?;
    Ok(())
}
