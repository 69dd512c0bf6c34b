//! The lines up to the one that names the hostile players.

ghost use Rattle.std.specs.Prelude.{◌≡◌, ◌<◌, ◌≤◌, ◌+◌, length, IfOk};
ghost use Rattle.schedule_command.specs.Played.{Opens, OpensOrPasses};
ghost use Rattle.schedule_command.specs.Played as P;
ghost use Rattle.schedule_command.specs.Schedule as S;

use crate::grammar::is_passed_over;
use crate::hostile::read_hostile;
use definitions::limits::{LONGEST_LINE, MOST_LINES};
use grid_world::Session;
use line_io::{LineReader, NextLine};
use run_frame::{Status, TextName};
use station::Source;

/// What a line says up to the one that names the hostile players.
#[derive(Clone, Copy)]
pub(crate) enum Naming {
    /// Nothing: it is passed over.
    Passed,
    /// Who is hostile, by a bit for each.
    Names(u64),
    /// Nothing of the grammar.
    Unknown,
}

/// What the lines came to up to that one.
#[derive(Clone, Copy)]
pub(crate) enum Opening {
    /// These players are hostile, and so many lines were read.
    Named(u64, u32),
    /// The same, and the input ended in that line.
    Last(u64, u32),
}

/// What the line says that comes behind so many lines.
#[tactic(auto, unfolding(crate::specs::Schedule::naming_behind))]
fn naming_behind(session: &Session, lines: u32, line: &[u8]) -> Naming
    requires { length line.now ≤ LONGEST_LINE }
    ensures value { result ≡ S.naming_behind session.now lines line.now }
    ensures few { P.IfKnown result (lines < MOST_LINES) }
{
    if lines >= MOST_LINES {
        return Naming::Unknown;
    }
    if is_passed_over(line) {
        return Naming::Passed;
    }
    match read_hostile(line, session) {
        Some(hostile) => Naming::Names(hostile),
        None => Naming::Unknown,
    }
}

/// The end of a run by the line that comes behind so many.
pub(crate) fn bad_line(lines: u32) -> Status
    requires { lines ≤ MOST_LINES + 1 }
    ensures { result ≡ Status.BadLine TextName.Script (lines + 1) }
{
    Status::BadLine {
        text: TextName::Script,
        line: lines + 1,
    }
}

/// What the line came to, which has its end: nothing where it is passed over. An error is the
/// status with which the run ends.
fn open_by(naming: Naming, lines: u32) -> Result<Option<Opening>, Status>
    requires { lines ≤ MOST_LINES }
    ensures { result ≡ P.open_by naming lines }
{
    match naming {
        Naming::Passed => Ok(None),
        Naming::Names(hostile) => Ok(Some(Opening::Named(hostile, lines + 1))),
        Naming::Unknown => Err(bad_line(lines)),
    }
}

/// What the line came to, in which the input ended. An error is the status with which the run ends.
fn open_last(naming: Naming, lines: u32) -> Result<Opening, Status>
    requires { lines ≤ MOST_LINES }
    ensures { result ≡ P.open_last naming lines }
{
    match naming {
        Naming::Passed => Err(bad_line(lines + 1)),
        Naming::Names(hostile) => Ok(Opening::Last(hostile, lines + 1)),
        Naming::Unknown => Err(bad_line(lines)),
    }
}

/// Reads the line that comes behind so many that were passed over. Nothing comes where it is passed
/// over too, and an error is the status with which the run ends.
fn open_line<I: Source>(
    session: &Session,
    lines: u32,
    reader: &mut LineReader,
    input: &mut I,
) -> Result<Option<Opening>, Status>
    requires { lines ≤ MOST_LINES }
    ensures text { OpensOrPasses session.now (I.state input.old) (I.state input.new) (S.opened_from session.now lines) (lines + 1) reader.old.pending reader.new.pending result }
    ensures few { P.HasFewSo result lines }
{
    match reader.next(input) {
        NextLine::Failed => Err(Status::InputFault),
        NextLine::TooLong => Err(bad_line(lines)),
        NextLine::End => Err(bad_line(lines)),
        NextLine::Last => {
            let opening = open_last(naming_behind(session, lines, reader.line()), lines)?;
            Ok(Some(opening))
        }
        NextLine::Line => open_by(naming_behind(session, lines, reader.line()), lines),
    }
}

/// Reads the lines up to the one that names the hostile players. An error is the status with which
/// the run ends.
pub(crate) fn open<I: Source>(
    session: &Session,
    reader: &mut LineReader,
    input: &mut I,
) -> Result<Opening, Status>
    ensures text { Opens session.now (I.state input.old) (I.state input.new) (S.opened_from session.now 0) reader.old.pending reader.new.pending result }
    ensures few { IfOk result P.HasFew }
{
    let mut lines = 0;
    'lines: loop {
        match open_line(session, lines, reader, input)? {
            None => lines += 1,
            Some(opening) => return Ok(opening),
        }
    }
}
