//! The program, by words that are read plainly.

ghost use Rattle.std.specs.Prelude.{◌≡◌, [], map};
ghost use Rattle.run_frame.specs.Outside.{outside};
ghost use Rattle.run_frame.specs.Runs.{Runs, Works};
ghost use Rattle.peer_runs.specs.Commands.{command_of, law_of};

use crate::commands::{obey, read_command};
use datagram_post::Post;
use rand_core::Rng;
use run_frame::{Status, refuse};
use socket_station::Station;
use station::{Shelf, Sink, Source};
use std::alloc::Global;

/// Does what the words ask for, but for the last line of a refusal.
fn work<I: Source, O: Sink, H: Shelf, S: Station, D: Post, R: Rng>(
    alloc: Global,
    words: &[Vec<u8>],
    input: &mut I,
    out: &mut O,
    shelf: &mut H,
    station: &mut S,
    post: &mut D,
    chance: &mut R,
) -> Status
    requires first { S.history station.old ≡ [] }
    requires unposted { D.history post.old ≡ [] }
    ensures { Works (law_of (command_of (map (λ w. w.items) words.now)))
        (outside (I.state input.old) (O.state out.old) (H.state shelf.old) (S.history station.old) (D.history post.old) (R.stream chance.old))
        (outside (I.state input.new) (O.state out.new) (H.state shelf.new) (S.history station.new) (D.history post.new) (R.stream chance.new)) result }
{
    match read_command(words) {
        None => Status::Usage,
        Some(command) => obey(alloc, command, input, out, shelf, station, post, chance),
    }
}

/// Does what the words ask for, which are those after the program's name. They are asked first, then the session, the
/// player, the other files in their order, and then the input line by line; the first that is refused decides. The words
/// are read where they stand, which takes no memory.
///
/// No call of the station or the post was made before.
pub fn run<I: Source, O: Sink, H: Shelf, S: Station, D: Post, R: Rng>(
    alloc: Global,
    words: &[Vec<u8>],
    input: &mut I,
    out: &mut O,
    shelf: &mut H,
    station: &mut S,
    post: &mut D,
    chance: &mut R,
) -> Status
    requires first { S.history station.old ≡ [] }
    requires unposted { D.history post.old ≡ [] }

    // The law of the command that the words say.
    ensures { Runs (law_of (command_of (map (λ w. w.items) words.now)))
        (outside (I.state input.old) (O.state out.old) (H.state shelf.old) (S.history station.old) (D.history post.old) (R.stream chance.old))
        (outside (I.state input.new) (O.state out.new) (H.state shelf.new) (S.history station.new) (D.history post.new) (R.stream chance.new)) result }
{
    let status = work(alloc, words, input, out, shelf, station, post, chance);
    refuse(status, out)
}
