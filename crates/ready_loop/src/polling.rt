//! Polls, and the whole of a run.

ghost use Rattle.std.specs.Prelude.{◌≡◌};
ghost use Rattle.ready_loop.specs.Polling.{Polls, Rounds, Ends, IsLicensedToPoll, round_of, ended_at};
ghost use Rattle.ready_loop.specs.Stops.{settled_of};
ghost use Rattle.own_moves.specs.Choices.{chooser};
ghost use Rattle.ready_loop.specs.Settling.{IsReady};

use crate::ready::Loop;
use crate::stops::Stop;
use definitions::{Finding, MoveFault, Turn};
use loop_ends::Ended;
use peer_rules::Phase;
use pilots::Pilot;
use rand_core::Rng;
use socket_station::{Did, Station};

/// How a round ended.
#[derive(Clone, Copy, Debug, PartialEq, Eq)]
pub enum Round {
    /// A poll was licensed, and was made.
    On,
    /// The log has no finding, all own turns are made, nobody is waited for, and no bytes wait.
    Done,
    /// The log has a finding: this is its first.
    Caught(Finding),
    /// `poll` failed.
    PollFault,
    /// `keep` or `sync` failed.
    KeepFault,
    /// The pilot's move of this turn is not legal.
    OwnMove(Turn, MoveFault),
}

/// How a round ends that stopped so.
fn round_at(stop: Stop) -> Round
    ensures { result ≡ round_of (settled_of stop) }
{
    match stop {
        Stop::Done => Round::Done,
        Stop::Caught(finding) => Round::Caught(finding),
        Stop::KeepFault => Round::KeepFault,
        Stop::OwnMove(turn, fault) => Round::OwnMove(turn, fault),
    }
}

/// How a run ends that stopped so.
fn ended_at(stop: Stop) -> Ended
    ensures { result ≡ ended_at (settled_of stop) }
{
    match stop {
        Stop::Done => Ended::Done,
        Stop::Caught(finding) => Ended::Caught(finding),
        Stop::KeepFault => Ended::KeepFault,
        Stop::OwnMove(turn, fault) => Ended::OwnMove(turn, fault),
    }
}

impl Loop {
    /// Polls once.
    fn poll<S: Station>(&mut self, station: &mut S) -> bool
        requires licensed { IsLicensedToPoll (S.history station.old) self.old }
        ensures { Polls result (S.history station.old) (S.history station.new) self.old self.new }
    {
        match station.poll(&mut self.ready) {
            Did::Done => {
                self.table.polled(self.ready.as_slice());
                true
            }
            Did::Failed => {
                self.phase = Phase::PollFault;
                false
            }
        }
    }

    /// Handles everything that is there, and then polls once, where a poll is licensed. The own moves that are put into the log meanwhile are the
    /// pilot's, and their nonces the ones that `chance` gives, as `settle` says.
    pub fn round<S: Station, P: Pilot, R: Rng>(
        &mut self,
        station: &mut S,
        pilot: &mut P,
        chance: &mut R,
    ) -> Round
        requires ready { IsReady (S.history station.old) self.old }
        ensures { Rounds (chooser (P.plan pilot.old) (R.stream chance.old)) (chooser (P.plan pilot.new) (R.stream chance.new)) result (S.history station.old) (S.history station.new) self.old self.new }
    {
        if let Err(stop) = self.settle_all(station, pilot, chance) {
            return round_at(stop);
        }
        if !self.poll(station) {
            return Round::PollFault;
        }
        Round::On
    }

    /// Plays with at most so many polls. All own moves of the run are the pilot's, and all their nonces the ones that `chance` gives, one behind
    /// the other, as `settle` says.
    pub fn play<S: Station, P: Pilot, R: Rng>(
        &mut self,
        station: &mut S,
        pilot: &mut P,
        chance: &mut R,
        polls: u64,
    ) -> Ended
        requires ready { IsReady (S.history station.old) self.old }
        ensures { Ends (chooser (P.plan pilot.old) (R.stream chance.old)) (chooser (P.plan pilot.new) (R.stream chance.new)) polls result (S.history station.old) (S.history station.new) self.old self.new }
    {
        let mut left = polls;
        while left > 0 {
            left -= 1;
            if let Err(stop) = self.settle_all(station, pilot, chance) {
                return ended_at(stop);
            }
            if !self.poll(station) {
                return Ended::PollFault;
            }
        }
        match self.settle_all(station, pilot, chance) {
            Ok(()) => Ended::GaveUp,
            Err(stop) => ended_at(stop),
        }
    }
}
