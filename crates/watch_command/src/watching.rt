//! A logger is played to its end.

ghost use Rattle.std.specs.Prelude.{◌≡◌, ◌≤◌, []};
ghost use Rattle.live_logger.specs.Going.{polls_of};
ghost use Rattle.live_logger.specs.States.{IsWatching, new_watch};
ghost use Rattle.watch_command.specs.Watches.{StandsWatched};

use live_logger::{Watch, WatchRound};
use socket_station::{Did, Station};

/// How a logger came to its end.
#[derive(Clone, Copy, Debug, PartialEq, Eq)]
pub(crate) enum Watched {
    /// Every turn of every player is agreed by what came.
    Agreed,
    /// All polls that are granted were made.
    Spent,
    /// `listen` or `poll` failed.
    PollFault,
    /// Memory was wanting for what came.
    NoMemory,
}

/// Plays rounds until one ends without a poll, or so many polls were made.
fn play_rounds<S: Station>(watch: &mut Watch, station: &mut S, polls: u32) -> Watched
    requires ready { IsWatching (S.history station.old) watch.old }
    requires none { polls_of (S.history station.old) ≡ 0 }
    requires granted { 1 ≤ polls }
    ensures { StandsWatched watch.old.view.setting polls result (S.history station.new)
        watch.new }
{
    let mut made = 0;
    'rounds: while made < polls {
        match watch.round(station) {
            WatchRound::On => made += 1,
            WatchRound::Agreed => return Watched::Agreed,
            WatchRound::PollFault => return Watched::PollFault,
            WatchRound::NoMemory => return Watched::NoMemory,
        }
    }
    Watched::Spent
}

/// Listens, and then takes what comes, with so many polls. No call was made of the logger before,
/// and none of the station.
pub(crate) fn watch_out<S: Station>(watch: &mut Watch, station: &mut S, polls: u32) -> Watched
    requires new { watch.old ≡ new_watch watch.old.view.setting.game watch.old.view.setting.roster }
    requires first { S.history station.old ≡ [] }
    requires granted { 1 ≤ polls }
    ensures { StandsWatched watch.old.view.setting polls result (S.history station.new)
        watch.new }
{
    match watch.begin(station) {
        Did::Done => play_rounds(watch, station, polls),
        Did::Failed => Watched::PollFault,
    }
}
