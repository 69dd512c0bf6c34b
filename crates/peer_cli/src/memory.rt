//! The program over files, an input and an output in memory.

ghost use Rattle.std.specs.Prelude.{◌≡◌, [], map};
ghost use Rattle.station.specs.Plans.{shelf_state, sink_state, source_state};
ghost use Rattle.run_frame.specs.Outside.{outside};
ghost use Rattle.peer_runs.specs.Commands.{command_of, law_of};
ghost use Rattle.peer_cli.specs.Memory.{ActsInMemory};

use crate::program::run;
use datagram_post::Post;
use rand_core::Rng;
use run_frame::Status;
use socket_station::Station;
use station::{MemoryShelf, MemorySink, MemorySource};
use std::alloc::Global;

/// Runs the program over files, an input and an output in memory. What it wrote is due by what the files and the input
/// held: this follows from the promises of `run` alone.
pub fn run_in_memory<S: Station, D: Post, R: Rng>(
    alloc: Global,
    words: &[Vec<u8>],
    input: &mut MemorySource,
    out: &mut MemorySink,
    shelf: &mut MemoryShelf,
    station: &mut S,
    post: &mut D,
    chance: &mut R,
) -> Status
    requires first { S.history station.old ≡ [] }
    requires unposted { D.history post.old ≡ [] }
    ensures { ActsInMemory (law_of (command_of (map (λ w. w.items) words.now))) input.old input.new out.old out.new shelf.old shelf.new (S.history station.old) (S.history station.new) (D.history post.old) (D.history post.new) (R.stream chance.old) (R.stream chance.new) result }
{
    run(alloc, words, input, out, shelf, station, post, chance)
}
