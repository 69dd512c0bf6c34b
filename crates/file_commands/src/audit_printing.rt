//! The text of an audit, written piece by piece.

ghost use Rattle.std.specs.Prelude.{◌≡◌, ℕ, List, Option, IfOk, is_some};
ghost use Rattle.definitions.specs.declared.logs.Entry.{Entry};
ghost use Rattle.definitions.specs.Findings as D;
ghost use Rattle.definitions.specs.Lists.{EachIs};
ghost use Rattle.definitions.specs.World.{Game, players_of};
ghost use Rattle.definition_laws.specs.Members.{Has};
ghost use Rattle.evidence.specs.Text.{exhibit_text};
ghost use Rattle.line_io.specs.Texts.{Puts};
ghost use Rattle.auditor.specs.Audits.{StandsFor};
ghost use Rattle.auditor.specs.Reports.{agreed_by, found_in, world_by};
ghost use Rattle.file_commands.specs.AuditLines as L;
ghost use Rattle.file_commands.specs.Audit as A;
ghost use Rattle.file_commands.specs.AuditPrinting.{Prints, status_of_print};
ghost use Rattle.file_commands.specs.declared.audit_printing.PrintFault.TheVariants.{NoMemory, Output};

use crate::audit_lines::{agreed_line, finding_line};
use auditor::{Auditor, Report};
use definitions::{Finding, PlayerId};
use evidence::print_exhibit;
use grid_world::Session;
use line_io::{SinkFault, put};
use report_lines::{end_line, world_line};
use run_frame::Status;
use station::Sink;
use std::alloc::{AllocError, Global};

/// Why a text was not printed to its end.
#[derive(Clone, Copy, Debug, PartialEq, Eq)]
pub(crate) enum PrintFault {
    /// Memory was wanting before a piece of the text. All that comes before the piece is printed.
    NoMemory,
    /// The sink failed in the text.
    Output,
}

impl From<AllocError> for PrintFault {
    ghost from_gives = { λ _ fault. fault ≡ NoMemory };

    fn from(_fault: AllocError) -> PrintFault {
        PrintFault::NoMemory
    }
}

impl From<SinkFault> for PrintFault {
    ghost from_gives = { λ _ fault. fault ≡ Output };

    fn from(_fault: SinkFault) -> PrintFault {
        PrintFault::Output
    }
}

impl From<PrintFault> for Status {
    ghost from_gives = { λ fault s. s ≡ status_of_print fault };

    fn from(fault: PrintFault) -> Status {
        match fault {
            PrintFault::NoMemory => Status::NoMemory,
            PrintFault::Output => Status::OutputFault,
        }
    }
}

/// The text of the finding's exhibit.
fn evidence_text(alloc: Global, auditor: &Auditor, finding: &Finding) -> Result<Vec<u8>, AllocError>
    ensures { IfOk result (λ text. (game : Game) (owners : List (Option ℕ)) (logs : List (List Entry)) → StandsFor game owners logs auditor.now → Has (D.findings game logs) finding.now → text.items ≡ exhibit_text (A.exhibit_of game logs finding.now)) }
{
    let exhibit = auditor.exhibit(alloc, finding)?;
    print_exhibit(alloc, &exhibit)
}

/// Writes a finding and its evidence; nothing where memory is wanting.
fn put_finding<O: Sink>(
    alloc: Global,
    auditor: &Auditor,
    finding: &Finding,
    out: &mut O,
) -> Result<(), PrintFault>
    ensures { (game : Game) (owners : List (Option ℕ)) (logs : List (List Entry)) → StandsFor game owners logs auditor.now → Has (D.findings game logs) finding.now → Prints (O.state out.old) (O.state out.new) (A.found_text game logs finding.now) result }
{
    let evidence = evidence_text(alloc, auditor, finding)?;
    put(out, finding_line(finding).as_slice())?;
    put(out, &evidence)?;
    Ok(())
}

/// Writes these findings, each with its evidence. Of one exhibit alone is memory held at a time.
fn put_findings<O: Sink>(
    alloc: Global,
    auditor: &Auditor,
    found: &[Finding],
    out: &mut O,
) -> Result<(), PrintFault>
    ensures { (game : Game) (owners : List (Option ℕ)) (logs : List (List Entry)) → StandsFor game owners logs auditor.now → EachIs (Has (D.findings game logs)) found.now → Prints (O.state out.old) (O.state out.new) (A.all_found_text game logs found.now) result }
{
    'findings: for finding in found {
        put_finding(alloc, auditor, finding, out)?;
    }
    Ok(())
}

/// Writes how many turns of each player are agreed.
fn put_agreed<O: Sink>(session: &Session, report: &Report, out: &mut O) -> Result<(), SinkFault>
    ensures { Puts (O.state out.old) (O.state out.new) (L.agreed_lines (agreed_by report.now) 0 (players_of session.now)) result }
{
    'players: for player in 0..session.players() {
        put(out, agreed_line(player, report.agreed(player)).as_slice())?;
    }
    Ok(())
}

/// Writes where the player stands behind the last turn, if that is told.
fn put_player<O: Sink>(report: &Report, player: PlayerId, out: &mut O) -> Result<(), SinkFault>
    ensures { Puts (O.state out.old) (O.state out.new) (L.told_line player (world_by report.now player)) result }
{
    match report.world(player) {
        None => put(out, b""),
        Some(told) => put(
            out,
            world_line(player, told.track, told.score.given, told.score.taken).as_slice(),
        ),
    }
}

/// Writes what is told of each player.
fn put_players<O: Sink>(session: &Session, report: &Report, out: &mut O) -> Result<(), SinkFault>
    ensures { Puts (O.state out.old) (O.state out.new) (L.world_lines (world_by report.now) 0 (players_of session.now)) result }
{
    'players: for player in 0..session.players() {
        put_player(report, player, out)?;
    }
    Ok(())
}

/// Writes where each player stands behind the last turn, or that this isn't told.
fn put_world<O: Sink>(session: &Session, report: &Report, out: &mut O) -> Result<(), SinkFault>
    ensures { Puts (O.state out.old) (O.state out.new) (A.world_text session.now (is_some (world_by report.now 0)) (world_by report.now)) result }
{
    if report.world(0).is_some() {
        put_players(session, report, out)
    } else {
        put(out, b"world none\n")
    }
}

/// Writes what the report tells: the findings with their evidence, how many turns of each player
/// are agreed, where each player stands, and that this is the end.
#[tactic(auto, unfolding(crate::specs::Audit::rest_text))]
pub(crate) fn put_report<O: Sink>(
    alloc: Global,
    auditor: &Auditor,
    session: &Session,
    report: &Report,
    out: &mut O,
) -> Result<(), PrintFault>
    ensures { (owners : List (Option ℕ)) (logs : List (List Entry)) → StandsFor session.now owners logs auditor.now → EachIs (Has (D.findings session.now logs)) (found_in report.now) → Prints (O.state out.old) (O.state out.new) (A.report_text session.now logs report.now) result }
{
    put_findings(alloc, auditor, report.findings(), out)?;
    put_agreed(session, report, out)?;
    put_world(session, report, out)?;
    put(out, end_line())?;
    Ok(())
}
