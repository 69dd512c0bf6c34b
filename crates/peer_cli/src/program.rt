//! The program.

ghost use Rattle.std.specs.Prelude.{◌≡◌, [], map, option_and_then, option_map};
ghost use Rattle.command_line.specs.Lines.{owned};
ghost use Rattle.run_frame.specs.declared.statuses.Status.{Status as Ended};
ghost use Rattle.run_frame.specs.Statuses.{code_of};
ghost use Rattle.run_frame.specs.Outside.{outside};
ghost use Rattle.run_frame.specs.Runs.{Runs, Works};
ghost use Rattle.peer_runs.specs.Commands.{command_of, law_of};
ghost use Rattle.peer_cli.specs.Lines.{command_on};

use crate::words;
use command_line::{OwnLine, split_words};
use datagram_post::Post;
use peer_runs::{is_command, obey};
use rand_core::Rng;
use run_frame::{Status, refuse};
use socket_station::Station;
use station::{Shelf, Sink, Source};
use std::alloc::Global;

/// Does what a command line asks for, but for the last line of a refusal.
fn obey_line<I: Source, O: Sink, H: Shelf, S: Station, D: Post, R: Rng>(
    alloc: Global,
    line: &Option<OwnLine>,
    input: &mut I,
    out: &mut O,
    shelf: &mut H,
    station: &mut S,
    post: &mut D,
    chance: &mut R,
) -> Status
    requires first { S.history station.old ≡ [] }
    requires unposted { D.history post.old ≡ [] }
    ensures { Works (law_of (option_and_then command_on (option_map owned line.now)))
        (outside (I.state input.old) (O.state out.old) (H.state shelf.old) (S.history station.old) (D.history post.old) (R.stream chance.old))
        (outside (I.state input.new) (O.state out.new) (H.state shelf.new) (S.history station.new) (D.history post.new) (R.stream chance.new)) result }
{
    match words::command_on(line) {
        None => Status::Usage,
        Some(command) => obey(alloc, command, input, out, shelf, station, post, chance),
    }
}

/// Does what the words ask for, but for the last line of a refusal. Words that are no command are told so before clap is
/// asked, which takes memory.
fn work<I: Source, O: Sink, H: Shelf, S: Station, D: Post, R: Rng>(
    alloc: Global,
    words: &[Vec<u8>],
    input: &mut I,
    out: &mut O,
    shelf: &mut H,
    station: &mut S,
    post: &mut D,
    chance: &mut R,
) -> Status
    requires first { S.history station.old ≡ [] }
    requires unposted { D.history post.old ≡ [] }
    ensures { Works (law_of (command_of (map (λ w. w.items) words.now)))
        (outside (I.state input.old) (O.state out.old) (H.state shelf.old) (S.history station.old) (D.history post.old) (R.stream chance.old))
        (outside (I.state input.new) (O.state out.new) (H.state shelf.new) (S.history station.new) (D.history post.new) (R.stream chance.new)) result }
{
    if !is_command(words) {
        return Status::Usage;
    }
    match split_words(alloc, words) {
        Err(_) => Status::NoMemory,
        Ok(line) => obey_line(alloc, &line, input, out, shelf, station, post, chance),
    }
}

/// Does what the words ask for, which are those after the program's name:
///
/// - `accuse SESSION ROOTS FILE..` prints what files of sealed frames, from 1 to 16, show together;
/// - `audit SESSION LOG..` prints what the logs in these files, from 1 to 16, show together;
/// - `deposit SESSION ROSTER PLAYER POLLS LOG` gives the player's log in the file LOG to the live logger
///   that its roster names, over sockets, with at most POLLS polls;
/// - `drive SESSION PLAYER [OLD]` lets the input drive a peer for the player, from the log in the file
///   OLD on, if one is named, and writes what the peer does;
/// - `judge SESSION EVIDENCE [ROOTS]` says whether the frames of the exhibit in the file EVIDENCE show
///   what it says, by their seals where ROOTS is named;
/// - `make N` makes the match of the number N, and prints what came of it;
/// - `peer SESSION ROSTER MOVES PLAYER POLLS LOG [OLD]` plays for the player with those of the roster,
///   over sockets, by the moves in the file MOVES, with nonces of the generator and a log of the name
///   LOG, with at most POLLS polls, from the log in the file OLD on, if one is named;
/// - `post SESSION ROSTER MOVES PLAYER POLLS LOG` plays as `peer` does, over datagrams, which may be
///   lost, repeated and reordered, and from no older log on;
/// - `root SESSION PLAYER SEED` tells the root of the player's keys;
/// - `schedule SESSION` steps the honest peers of a match by the lines of the input;
/// - `seal SESSION PLAYER SEED LOG` writes each frame that the player made, with its seal;
/// - `upgrade SESSION` prints the session in version 2;
/// - `watch SESSION ROSTER POLLS` takes the logs of all players over sockets while they play, with at
///   most POLLS polls, and prints what they show together.
///
/// The words are asked first, then the session, the player, the other files in their order, and then
/// the input line by line; the first that is refused decides. No call of the station or the post was
/// made before.
pub fn run<I: Source, O: Sink, H: Shelf, S: Station, D: Post, R: Rng>(
    alloc: Global,
    words: &[Vec<u8>],
    input: &mut I,
    out: &mut O,
    shelf: &mut H,
    station: &mut S,
    post: &mut D,
    chance: &mut R,
) -> Status
    requires first { S.history station.old ≡ [] }
    requires unposted { D.history post.old ≡ [] }

    // The law of the command that the words say: what is read and written, why each status comes, what is left alone,
    // when the run comes to its end, and what is behind it.
    ensures { Runs (law_of (command_of (map (λ w. w.items) words.now)))
        (outside (I.state input.old) (O.state out.old) (H.state shelf.old) (S.history station.old) (D.history post.old) (R.stream chance.old))
        (outside (I.state input.new) (O.state out.new) (H.state shelf.new) (S.history station.new) (D.history post.new) (R.stream chance.new)) result }
{
    let status = work(alloc, words, input, out, shelf, station, post, chance);
    refuse(status, out)
}

/// As [`run`], for a program: it answers the exit status that tells how the run ended.
pub fn exit_status<I: Source, O: Sink, H: Shelf, S: Station, D: Post, R: Rng>(
    alloc: Global,
    words: &[Vec<u8>],
    input: &mut I,
    out: &mut O,
    shelf: &mut H,
    station: &mut S,
    post: &mut D,
    chance: &mut R,
) -> u8
    requires first { S.history station.old ≡ [] }
    requires unposted { D.history post.old ≡ [] }

    // The run ended so by its law, and this is the number of that status.
    ensures { (status : Ended) × Runs (law_of (command_of (map (λ w. w.items) words.now)))
        (outside (I.state input.old) (O.state out.old) (H.state shelf.old) (S.history station.old) (D.history post.old) (R.stream chance.old))
        (outside (I.state input.new) (O.state out.new) (H.state shelf.new) (S.history station.new) (D.history post.new) (R.stream chance.new)) status ×
        (result ≡ code_of status) }
{
    run(alloc, words, input, out, shelf, station, post, chance).code()
}
