//! The command over the file that its words name.

ghost use Rattle.run_frame.specs.Outside.{Outside, with_input};
ghost use Rattle.run_frame.specs.Runs.{Works};
ghost use Rattle.schedule_command.specs.ScheduleLaw.{schedule_law};

use crate::playing::play_schedule;
use run_frame::{Status, open_session};
use station::{Shelf, Sink, Source};
use std::alloc::Global;

/// Steps the honest peers of a match in the session of a file by the lines of the input, but for the last line
/// of a refusal.
pub fn run_schedule<I: Source, O: Sink, H: Shelf>(
    alloc: Global,
    session: &[u8],
    input: &mut I,
    out: &mut O,
    shelf: &mut H,
) -> Status
    ensures { (rest : Outside) → Works (schedule_law session.now) (with_input rest (I.state input.old) (O.state out.old) (H.state shelf.old)) (with_input rest (I.state input.new) (O.state out.new) (H.state shelf.new)) result }
{
    match open_session(alloc, shelf, session) {
        Ok(session) => play_schedule(alloc, &session, input, out),
        Err(status) => status,
    }
}
