//! A schedule that is answered line by line.

ghost use Rattle.std.specs.Prelude.{◌≡◌, ◌<◌, ◌≤◌, ◌+◌, ℕ, [], false, length, true, OnOk};
ghost use Rattle.line_io.specs.Inputs.{End, Line};
ghost use Rattle.run_frame.specs.Frame.{Ends, is_input_fault};
ghost use Rattle.run_frame.specs.Turns.{Plays, PlaysTurn};
ghost use Rattle.schedule_command.specs.Played.{EndsOrLacks, OnEnd, OnErrEnd, PlaysOrLacks};
ghost use Rattle.schedule_command.specs.Schedule as S;

use crate::answering::answer;
use crate::opening::{Opening, bad_line, open};
use crate::telling::put_end;
use definitions::limits::{LONGEST_LINE, MOST_LINES};
use grid_world::Session;
use line_io::{LineReader, NextLine};
use run_frame::Status;
use schedule::{Stand, Table};
use station::{Sink, Source};
use std::alloc::Global;

/// How a run ends that came to its end, where the match stands so.
fn status_of(stand: Stand) -> Status
    ensures { result ≡ S.status_of stand }
{
    match stand {
        Stand::Caught(_) => Status::Caught,
        Stand::Moving(_) | Stand::Behind(..) | Stand::Held(_) | Stand::Finished => Status::Done,
    }
}

/// Writes the end, behind so many lines.
fn end<O: Sink>(table: &Table, out: &mut O) -> Status
    ensures text { (n : ℕ) → Ends (O.state out.old) (O.state out.new) (S.schedule_from table.now n End) result }
    ensures source { is_input_fault result ≡ false }
{
    let stand = table.stand();
    match put_end(stand, out) {
        Ok(()) => status_of(stand),
        Err(fault) => Status::from(fault),
    }
}

/// Answers the last line, behind which the input ended.
fn answer_last<O: Sink>(table: &mut Table, lines: u32, line: &[u8], out: &mut O) -> Status
    requires short { length line.now ≤ LONGEST_LINE }
    requires few { lines ≤ MOST_LINES }
    ensures text { Ends (O.state out.old) (O.state out.new) (S.schedule_from table.old lines (Line line.now End)) result }
    ensures source { is_input_fault result ≡ false }
{
    match answer(table, lines, line, out) {
        Ok(()) => end(table, out),
        Err(status) => status,
    }
}

/// Reads the next line, which comes behind so many, and answers it. An error is the status with
/// which the run ends.
fn answer_line<I: Source, O: Sink>(
    table: &mut Table,
    lines: u32,
    reader: &mut LineReader,
    input: &mut I,
    out: &mut O,
) -> Result<(), Status>
    requires { lines ≤ MOST_LINES }
    ensures text { PlaysTurn (I.state input.old) (I.state input.new) (O.state out.old) (O.state out.new)
        (S.schedule_from table.old lines) (S.schedule_from table.new (lines + 1)) reader.old.pending reader.new.pending result }
    ensures over { OnErrEnd result ((I.state input.new).ended ≡ true) }
    ensures few { OnOk result (lines < MOST_LINES) }
{
    match reader.next(input) {
        NextLine::Failed => Err(Status::InputFault),
        NextLine::TooLong => Err(bad_line(lines)),
        NextLine::End => Err(end(table, out)),
        NextLine::Last => Err(answer_last(table, lines, reader.line(), out)),
        NextLine::Line => answer(table, lines, reader.line(), out),
    }
}

/// Reads and answers the lines behind so many, to their end or to the first that ends the run.
fn answer_lines<I: Source, O: Sink>(
    table: &mut Table,
    lines: u32,
    reader: &mut LineReader,
    input: &mut I,
    out: &mut O,
) -> Status
    requires { lines ≤ MOST_LINES }
    ensures text { Plays (I.state input.old) (I.state input.new) (O.state out.old) (O.state out.new) (S.schedule_from table.old lines) reader.old.pending result }
    ensures over { OnEnd result ((I.state input.new).ended ≡ true) }
{
    let mut count = lines;
    'lines: loop {
        match answer_line(table, count, reader, input, out) {
            Ok(()) => count += 1,
            Err(status) => return status,
        }
    }
}

/// Makes the table, and answers the lines behind so many.
fn play_on<I: Source, O: Sink>(
    alloc: Global,
    session: &Session,
    hostile: u64,
    lines: u32,
    reader: &mut LineReader,
    input: &mut I,
    out: &mut O,
) -> Status
    requires { lines ≤ MOST_LINES }
    ensures text { PlaysOrLacks (I.state input.old) (I.state input.new) (O.state out.old) (O.state out.new)
        (S.schedule_from (S.first_table session.now hostile) lines) reader.old.pending result }
    ensures over { OnEnd result ((I.state input.new).ended ≡ true) }
{
    let Ok(mut table) = Table::new(alloc, session, hostile) else {
        return Status::NoMemory;
    };
    answer_lines(&mut table, lines, reader, input, out)
}

/// Makes the table, and writes the end.
fn end_at_once<O: Sink>(alloc: Global, session: &Session, hostile: u64, out: &mut O) -> Status
    ensures text { (n : ℕ) → EndsOrLacks (O.state out.old) (O.state out.new) (S.schedule_from (S.first_table session.now hostile) n End) result }
    ensures source { is_input_fault result ≡ false }
{
    let Ok(table) = Table::new(alloc, session, hostile) else {
        return Status::NoMemory;
    };
    end(&table, out)
}

/// Steps the honest peers of a match in the session by the lines of the input, and tells of each line. All memory is taken before the
/// first byte is written: where it is wanting, nothing is.
pub fn play_schedule<I: Source, O: Sink>(
    alloc: Global,
    session: &Session,
    input: &mut I,
    out: &mut O,
) -> Status

    // What is read and written, and how the run ends: as is due for the bytes that were read, whatever stands behind them.
    ensures text { PlaysOrLacks (I.state input.old) (I.state input.new) (O.state out.old) (O.state out.new) (S.schedule_answer session.now) [] result }

    // At the command's end, with a finding or without one, the source answered its end.
    ensures over { OnEnd result ((I.state input.new).ended ≡ true) }
{
    let mut reader = LineReader::new();
    match open(session, &mut reader, input) {
        Err(status) => status,
        Ok(Opening::Last(hostile, _)) => end_at_once(alloc, session, hostile, out),
        Ok(Opening::Named(hostile, lines)) => {
            play_on(alloc, session, hostile, lines, &mut reader, input, out)
        }
    }
}
