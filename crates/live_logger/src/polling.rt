//! Polls, and rounds.

ghost use Rattle.std.specs.Prelude.{◌≡◌, true, false, length};
ghost use Rattle.live_logger.specs.States.{IsWatching};
ghost use Rattle.watch_rules.specs.Licence.{is_licensed};
ghost use Rattle.live_logger.specs.Polling.{Polls, Rounds, all_agreed};

use crate::watch::Watch;
use socket_station::{Did, Station};

/// How a round of a logger ended.
#[derive(Clone, Copy, Debug, PartialEq, Eq)]
pub enum WatchRound {
    /// A poll was licensed and made, and some turn is not agreed.
    On,
    /// Every turn of every player is agreed by what came. No poll was made.
    Agreed,
    /// `poll` failed: no further round is played.
    PollFault,
    /// The auditor had no memory for what came: no further round is played.
    NoMemory,
}

impl Watch {
    /// Whether every turn of every player is agreed by what came.
    fn is_agreed(&self) -> bool
        requires { self.now.is_out_of_memory ≡ false }
        ensures { result ≡ all_agreed self.now.view }
    {
        self.board.books.is_agreed()
    }

    /// Polls once, and says whether that was done.
    fn poll<S: Station>(&mut self, station: &mut S) -> bool
        requires ready { IsWatching (S.history station.old) self.old }
        requires licensed { is_licensed self.old.view ≡ true }
        ensures { Polls result (S.history station.old) (S.history station.new) self.old self.new }
    {
        match station.poll(&mut self.ready) {
            Did::Done => {
                self.board.polled(self.ready.as_slice());
                true
            }
            Did::Failed => {
                self.board.deafens();
                false
            }
        }
    }

    /// Reads, shuts and writes all that is there, and polls once, unless every turn of every
    /// player is agreed then. It is called after `begin` was done and after rounds that ended as
    /// On or Agreed.
    pub fn round<S: Station>(&mut self, station: &mut S) -> WatchRound
        requires ready { IsWatching (S.history station.old) self.old }
        ensures { Rounds result (S.history station.old) (S.history station.new) self.old self.new }
    {
        if self.read_all(station).is_err() {
            return WatchRound::NoMemory;
        }
        self.shut_all(station);
        self.write_all(station);
        if self.is_agreed() {
            return WatchRound::Agreed;
        }
        if self.poll(station) {
            WatchRound::On
        } else {
            WatchRound::PollFault
        }
    }
}
