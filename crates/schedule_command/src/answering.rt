//! Lines that are answered.

ghost use Rattle.std.specs.Prelude.{◌≡◌, ◌<◌, ◌≤◌, ◌+◌, false, length, OnOk};
ghost use Rattle.line_io.specs.Inputs.{Input, Line};
ghost use Rattle.line_io.specs.Texts.{Puts};
ghost use Rattle.schedule.specs.Steps.{HasPlayers};
ghost use Rattle.schedule_command.specs.Grammar.{IsOfPlayers, is_bad};
ghost use Rattle.schedule_command.specs.Played.{AnswersLine};
ghost use Rattle.schedule_command.specs.Schedule as S;

use crate::grammar::{ScheduleLine, read_line};
use crate::opening::bad_line;
use crate::telling::{entries_of, kept, mover_of, put_made, put_tally, step_line};
use definitions::limits::{LONGEST_LINE, MOST_LINES};
use line_io::{SinkFault, put};
use run_frame::Status;
use schedule::{Step, Table};
use station::Sink;

/// What the line says that comes behind so many lines.
#[tactic(auto, unfolding(crate::specs::Schedule::said_behind))]
fn said_behind(table: &Table, lines: u32, line: &[u8]) -> ScheduleLine
    requires { length line.now ≤ LONGEST_LINE }
    ensures value { result ≡ S.said_behind table.now.game lines line.now }
    ensures players { IsOfPlayers table.now.game result }
    ensures few { is_bad result ≡ false → lines < MOST_LINES }
{
    if lines >= MOST_LINES {
        return ScheduleLine::Bad;
    }
    read_line(line, table.session())
}

/// Takes a step, and tells of it.
#[tactic(auto, unfolding(crate::specs::Schedule::step_text, crate::specs::Schedule::table_after))]
fn take_step<O: Sink>(table: &mut Table, step: &Step, out: &mut O) -> Result<(), SinkFault>
    requires { HasPlayers table.old.game step.now }
    ensures text { Puts (O.state out.old) (O.state out.new) (S.step_text table.old step.now) result }
    ensures table { table.new ≡ S.table_after table.old step.now }
{
    let entries = entries_of(table, mover_of(step));
    let said = table.step(step);
    let count = kept(step, &said, entries);
    put(out, step_line(table.session(), step, &said).as_slice())?;
    put_made(table, mover_of(step), count, out)
}

/// Answers the line that was read, which comes behind so many lines. An error is the status with
/// which the run ends: `BadLine` where the line is in no grammar or one too many, when nothing
/// changed, and `OutputFault` where the sink failed.
pub(crate) fn answer<O: Sink>(
    table: &mut Table,
    lines: u32,
    line: &[u8],
    out: &mut O,
) -> Result<(), Status>
    requires short { length line.now ≤ LONGEST_LINE }
    requires few { lines ≤ MOST_LINES }
    ensures text { (input : Input) → AnswersLine (O.state out.old) (O.state out.new)
        (S.schedule_from table.old lines (Line line.now input)) (S.schedule_from table.new (lines + 1) input) (lines + 1) result }
    ensures few { OnOk result (lines < MOST_LINES) }
{
    match said_behind(table, lines, line) {
        ScheduleLine::Nothing => Ok(()),
        ScheduleLine::Step(step) => {
            take_step(table, &step, out)?;
            Ok(())
        }
        ScheduleLine::Tally(player) => {
            put_tally(table, player, out)?;
            Ok(())
        }
        ScheduleLine::Bad => Err(bad_line(lines)),
    }
}
