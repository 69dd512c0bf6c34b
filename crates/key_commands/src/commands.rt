//! The commands over the files that their words name: what each reads, and what it makes of that.

ghost use Rattle.run_frame.specs.Outside.{Outside, with_files};
ghost use Rattle.run_frame.specs.Runs.{Works};
ghost use Rattle.key_commands.specs.RootLaw.{root_law};
ghost use Rattle.key_commands.specs.SealLaw.{seal_law};
ghost use Rattle.key_commands.specs.Words.{keying_said, sealing_said};

use crate::opening::{open_keys, open_sealing};
use crate::rooting::tell_root;
use crate::sealing::tell_sealed;
use crate::words::{KeyWords, SealWords};
use run_frame::Status;
use station::{Shelf, Sink};
use std::alloc::Global;

/// Prints the root of the keys that a player has by the session and the seed of two files, but for the
/// last line of a refusal.
pub fn run_root<O: Sink, H: Shelf>(
    alloc: Global,
    words: KeyWords<'_>,
    out: &mut O,
    shelf: &mut H,
) -> Status
    ensures { (rest : Outside) → Works (root_law (keying_said words.entry)) (with_files rest (O.state out.old) (H.state shelf.old)) (with_files rest (O.state out.new) (H.state shelf.new)) result }
{
    match open_keys(alloc, shelf, words) {
        Ok(source) => tell_root(alloc, &source, words.player, out),
        Err(status) => status,
    }
}

/// Writes each frame that a player made by the log of a file, with its seal, but for the last line of a
/// refusal.
pub fn run_seal<O: Sink, H: Shelf>(
    alloc: Global,
    words: SealWords<'_>,
    out: &mut O,
    shelf: &mut H,
) -> Status
    ensures { (rest : Outside) → Works (seal_law (sealing_said words.entry)) (with_files rest (O.state out.old) (H.state shelf.old)) (with_files rest (O.state out.new) (H.state shelf.new)) result }
{
    match open_sealing(alloc, shelf, words) {
        Ok(source) => tell_sealed(alloc, &source, out),
        Err(status) => status,
    }
}
