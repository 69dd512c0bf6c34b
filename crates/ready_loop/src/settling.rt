//! Everything that is there is handled.

ghost use Rattle.std.specs.Prelude.{◌≡◌, ◌<◌, ◌≤◌, None};
ghost use Rattle.ready_loop.specs.Handling.{IsReadyToRead};
ghost use Rattle.own_moves.specs.Choices.{chooser};
ghost use Rattle.ready_loop.specs.Stops.{settled_by};
ghost use Rattle.ready_loop.specs.Settling.{Settles, IsReady, IsReadOut, Passes, ServesSo, Syncs, Catches};
ghost use Rattle.ready_loop.specs.Serving.{IsServing};

use crate::ready::Loop;
use crate::stops::Stop;
use definitions::{Finding, MoveFault, Turn};
use pilots::Pilot;
use rand_core::Rng;
use socket_station::Station;

/// How a settling ended.
#[derive(Clone, Copy, Debug, PartialEq, Eq)]
pub enum Settled {
    /// A poll is licensed.
    Idle,
    /// The log has no finding, all own turns are made, nobody is waited for, and no bytes wait.
    Done,
    /// The log has a finding: this is its first.
    Caught(Finding),
    /// `keep` or `sync` failed.
    KeepFault,
    /// The pilot's move of this turn is not legal.
    OwnMove(Turn, MoveFault),
}

/// How a settling ends: where a poll is licensed, or else as its loop stopped.
fn settled_by(settled: Result<(), Stop>) -> Settled
    ensures { result ≡ settled_by settled }
{
    match settled {
        Ok(()) => Settled::Idle,
        Err(Stop::Done) => Settled::Done,
        Err(Stop::Caught(finding)) => Settled::Caught(finding),
        Err(Stop::KeepFault) => Settled::KeepFault,
        Err(Stop::OwnMove(turn, fault)) => Settled::OwnMove(turn, fault),
    }
}

impl Loop {
    /// Syncs the log, if there is something to sync.
    pub(crate) fn sync<S: Station>(&mut self, station: &mut S) -> Result<(), Stop>
        requires ready { IsReady (S.history station.old) self.old }
        ensures { Syncs result (S.history station.old) (S.history station.new) self.old self.new }
    {
        if self.synced == self.kept {
            return Ok(());
        }
        if !self.sync_kept(station) {
            return Err(Stop::KeepFault);
        }
        Ok(())
    }

    /// Stops at the first finding of the log, once all is synced. Without one nothing is done.
    pub(crate) fn stop_if_caught<S: Station>(&mut self, station: &mut S) -> Result<(), Stop>
        requires ready { IsReady (S.history station.old) self.old }
        ensures { Catches result (S.history station.old) (S.history station.new) self.old self.new }
    {
        if let Some(finding) = self.finding() {
            self.sync(station)?;
            return Err(Stop::Caught(finding));
        }
        Ok(())
    }

    /// Shuts and writes what is to be, and dials one player, if one is to be. It says whether one
    /// was: else a poll is licensed.
    fn serve<S: Station>(&mut self, station: &mut S) -> Result<bool, Stop>
        requires serving { IsServing (S.history station.old) self.old }
        requires out { IsReadOut self.old }
        ensures { ServesSo result (S.history station.old) (S.history station.new) self.old self.new }
    {
        self.shut_all(station);
        self.write_all(station);
        self.facts();
        if !self.is_waited_for() {
            return Err(Stop::Done);
        }
        match self.next_dial() {
            None => Ok(false),
            Some(seat) => {
                self.dial(station, seat);
                Ok(true)
            }
        }
    }

    /// Reads all that is there, chooses the moves that may be, and keeps and syncs; then it shuts,
    /// writes, and dials one player, if one is to be. It says whether one was, as `serve` does.
    fn pass<S: Station, P: Pilot, R: Rng>(
        &mut self,
        station: &mut S,
        pilot: &mut P,
        chance: &mut R,
    ) -> Result<bool, Stop>
        requires ready { IsReadyToRead (S.history station.old) self.old }
        ensures { Passes (chooser (P.plan pilot.old) (R.stream chance.old)) (chooser (P.plan pilot.new) (R.stream chance.new)) result (S.history station.old) (S.history station.new) self.old self.new }
    {
        self.read_all(station)?;
        self.choose_all(station, pilot, chance)?;
        self.sync(station)?;
        self.serve(station)
    }

    /// Handles everything that is there, until a poll is licensed or the loop stops.
    pub(crate) fn settle_all<S: Station, P: Pilot, R: Rng>(
        &mut self,
        station: &mut S,
        pilot: &mut P,
        chance: &mut R,
    ) -> Result<(), Stop>
        requires ready { IsReady (S.history station.old) self.old }
        ensures { Settles (chooser (P.plan pilot.old) (R.stream chance.old)) (chooser (P.plan pilot.new) (R.stream chance.new)) (settled_by result) (S.history station.old) (S.history station.new) self.old self.new }
    {
        self.advance(station)?;
        self.stop_if_caught(station)?;
        loop {
            let dialled = self.pass(station, pilot, chance)?;
            if !dialled {
                return Ok(());
            }
        }
    }

    /// Handles everything that is there, until a poll is licensed or the run is over. Behind a keep fault, a finding or an own move that is not
    /// legal no further call is made. The own moves that are put into the log meanwhile are the pilot's, by its plan where it tells one, and their
    /// nonces are the ones that `chance` gives, one behind the other.
    pub fn settle<S: Station, P: Pilot, R: Rng>(
        &mut self,
        station: &mut S,
        pilot: &mut P,
        chance: &mut R,
    ) -> Settled
        requires ready { IsReady (S.history station.old) self.old }
        ensures { Settles (chooser (P.plan pilot.old) (R.stream chance.old)) (chooser (P.plan pilot.new) (R.stream chance.new)) result (S.history station.old) (S.history station.new) self.old self.new }
    {
        settled_by(self.settle_all(station, pilot, chance))
    }
}
