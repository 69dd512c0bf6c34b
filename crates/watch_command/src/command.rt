//! The command over the files that its words name.

ghost use Rattle.std.specs.Prelude.{◌≡◌, ◌≤◌, []};
ghost use Rattle.live_logger.specs.States.{LinksAll};
ghost use Rattle.run_frame.specs.Outside.{Outside, with_sockets};
ghost use Rattle.run_frame.specs.Runs.{Works};
ghost use Rattle.watch_command.specs.Plays.{PlaysWatch};
ghost use Rattle.watch_command.specs.WatchLaw.{watch_law};
ghost use Rattle.watch_command.specs.Words.{watching_said};

use crate::ending::put_end;
use crate::opening::{WatchSource, open_source};
use crate::watching::watch_out;
use crate::words::WatchWords;
use live_logger::Watch;
use run_frame::Status;
use socket_station::Station;
use station::{Shelf, Sink};
use std::alloc::Global;

/// Plays a logger of what was opened, with so many polls, and writes its end. Where there is no
/// memory for a logger, no call is made and nothing is written.
fn play_watch<O: Sink, S: Station>(
    alloc: Global,
    source: WatchSource,
    polls: u32,
    out: &mut O,
    station: &mut S,
) -> Status
    requires links { LinksAll source.session source.roster }
    requires granted { 1 ≤ polls }
    requires first { S.history station.old ≡ [] }
    ensures { PlaysWatch source polls (S.history station.old) (S.history station.new)
        (O.state out.old) (O.state out.new) result }
{
    let WatchSource { session, roster } = source;
    let Ok(mut watch) = Watch::new(alloc, &session, roster) else {
        return Status::NoMemory;
    };
    let watched = watch_out(&mut watch, station, polls);
    put_end(alloc, &watch, watched, out)
}

/// Takes the logs of all players of a file's session over sockets, by the roster of another file,
/// and prints what they show together, all as the words ask for, but for the last line of a
/// refusal.
///
/// No call of the station was made before.
pub fn run_watch<O: Sink, H: Shelf, S: Station>(
    alloc: Global,
    words: WatchWords<'_>,
    out: &mut O,
    shelf: &mut H,
    station: &mut S,
) -> Status
    requires first { S.history station.old ≡ [] }
    ensures { (rest : Outside) → Works (watch_law (watching_said words.entry)) (with_sockets rest (O.state out.old) (H.state shelf.old) (S.history station.old) rest.chance) (with_sockets rest (O.state out.new) (H.state shelf.new) (S.history station.new) rest.chance) result }
{
    match open_source(alloc, shelf, words) {
        Err(status) => status,
        Ok(source) => play_watch(alloc, source, words.polls, out, station),
    }
}
