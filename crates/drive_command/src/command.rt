//! The command over the files that its words name.

ghost use Rattle.run_frame.specs.Outside.{Outside, with_input};
ghost use Rattle.run_frame.specs.Runs.{Works};
ghost use Rattle.drive_command.specs.DriveLaw.{drive_law};
ghost use Rattle.drive_command.specs.Words.{driving_said};

use crate::playing::drive;
use crate::words::DriveWords;
use old_log::open_peer;
use run_frame::Status;
use station::{Shelf, Sink, Source};
use std::alloc::Global;

/// Drives a peer for the player of a file's session by the input, from the log in the other file on, if one is
/// named, but for the last line of a refusal.
pub fn run_drive<I: Source, O: Sink, H: Shelf>(
    alloc: Global,
    words: DriveWords<'_>,
    input: &mut I,
    out: &mut O,
    shelf: &mut H,
) -> Status
    ensures { (rest : Outside) → Works (drive_law (driving_said words.entry)) (with_input rest (I.state input.old) (O.state out.old) (H.state shelf.old)) (with_input rest (I.state input.new) (O.state out.new) (H.state shelf.new)) result }
{
    match open_peer(alloc, shelf, words.session, words.player, words.old) {
        Ok(begun) => drive(begun.peer, begun.dropped, input, out),
        Err(status) => status,
    }
}
