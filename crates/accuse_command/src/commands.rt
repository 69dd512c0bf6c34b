//! The command over the files that its words name: what it reads, and what it makes of that.

ghost use Rattle.run_frame.specs.Outside.{Outside, with_files};
ghost use Rattle.run_frame.specs.Runs.{Works};
ghost use Rattle.accuse_command.specs.AccuseLaw.{accuse_law};
ghost use Rattle.accuse_command.specs.AccuseWords.{accusing_said};

use crate::accusing::put_accusation;
use crate::opening::open_accusation;
use crate::words::AccuseWords;
use run_frame::Status;
use station::{Shelf, Sink};
use std::alloc::Global;

/// Prints what files of sealed frames show, by the session and the roots of two more, but for the
/// last line of a refusal.
pub fn run_accuse<O: Sink, H: Shelf>(
    alloc: Global,
    words: AccuseWords<'_>,
    out: &mut O,
    shelf: &mut H,
) -> Status
    ensures { (rest : Outside) → Works (accuse_law (accusing_said words.entry)) (with_files rest (O.state out.old) (H.state shelf.old)) (with_files rest (O.state out.new) (H.state shelf.new)) result }
{
    match open_accusation(alloc, shelf, words) {
        Ok(accusation) => put_accusation(alloc, &accusation.report, out),
        Err(status) => status,
    }
}
