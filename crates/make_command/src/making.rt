//! The command to make a match.

ghost use Rattle.std.specs.Prelude.{◌≡◌, ◌++◌, ◌≤◌, ◌<◌, length, false};
ghost use Rattle.line_io.specs.Texts.{Puts};
ghost use Rattle.run_frame.specs.Frame.{Ran};
ghost use Rattle.make_command.specs.Make as M;
ghost use Rattle.make_command.specs.Make.{make_answer};

use crate::lines::head_lines;
use crate::summary::{Summary, make_match};
use auditor::WorldLine;
use line_io::{SinkFault, put};
use report_lines::{end_line, world_line};
use run_frame::Status;
use station::Sink;
use std::alloc::Global;

/// Writes where each player stands, in order of player.
fn put_players<O: Sink>(lines: &[WorldLine], out: &mut O) -> Result<(), SinkFault>
    requires { length lines.now ≤ 64 }
    ensures { Puts (O.state out.old) (O.state out.new) (M.player_lines 0 lines.now) result }
{
    let mut player = 0u8;
    'lines: for line in lines {
        put(
            out,
            world_line(player, line.track, line.score.given, line.score.taken).as_slice(),
        )?;
        player += 1;
    }
    Ok(())
}

/// Writes where each player stands, or that it isn't told.
fn put_world<O: Sink>(lines: &[WorldLine], out: &mut O) -> Result<(), SinkFault>
    requires { length lines.now ≤ 64 }
    ensures { Puts (O.state out.old) (O.state out.new) (M.world_text lines.now) result }
{
    match lines {
        [] => put(out, b"world none\n"),
        [_, ..] => put_players(lines, out),
    }
}

/// Writes what came of a match.
#[tactic(auto, unfolding(crate::specs::Make::summary_text))]
fn put_summary<O: Sink>(summary: &Summary, out: &mut O) -> Result<(), SinkFault>
    requires { length summary.now.players ≤ 64 }
    ensures { Puts (O.state out.old) (O.state out.new) (M.summary_text summary.now) result }
{
    put(out, head_lines(summary).as_slice())?;
    put_world(summary.players.as_slice(), out)?;
    put(out, end_line())
}

/// Makes the match of this number, and prints what came of it. All memory is taken before the first byte is written.
pub fn make<O: Sink>(alloc: Global, number: u64, out: &mut O) -> Status
    ensures { Ran (O.state out.old) (O.state out.new) (make_answer number) false ⊥ ⊥ result }
{
    let Ok(summary) = make_match(alloc, number) else {
        return Status::NoMemory;
    };
    match put_summary(&summary, out) {
        Ok(()) => Status::Done,
        Err(fault) => Status::from(fault),
    }
}
