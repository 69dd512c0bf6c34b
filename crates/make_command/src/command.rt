//! The command.

ghost use Rattle.station.specs.Shelves.{ShelfState};
ghost use Rattle.run_frame.specs.Outside.{Outside, with_files};
ghost use Rattle.run_frame.specs.Runs.{Works};
ghost use Rattle.make_command.specs.MakeLaw.{make_law};

use crate::making::make;
use run_frame::Status;
use station::Sink;
use std::alloc::Global;

/// Makes the match of the number, and prints what came of it. It reads no file and no input.
pub fn run_make<O: Sink>(alloc: Global, number: u64, out: &mut O) -> Status
    ensures { (rest : Outside) (shelf : ShelfState) → Works (make_law number) (with_files rest (O.state out.old) shelf) (with_files rest (O.state out.new) shelf) result }
{
    make(alloc, number, out)
}
