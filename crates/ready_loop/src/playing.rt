//! Own moves are chosen.

ghost use Rattle.std.specs.Prelude.{◌≡◌, true};
ghost use Rattle.definitions.specs.Needs.{may_choose};
ghost use Rattle.own_moves.specs.Choices.{chooser};
ghost use Rattle.ready_loop.specs.Settling.{Plays, Chooses, IsPlaying};

use crate::ready::Loop;
use crate::stops::Stop;
use own_moves::{Moves, choose_move};
use pilots::Pilot;
use rand_core::Rng;
use socket_station::Station;

impl Loop {
    /// Whether a move may be chosen now.
    fn may_choose(&self) -> bool
        ensures { result ≡ may_choose self.now.peer.game self.now.peer.me self.now.peer.entries }
    {
        self.peer.may_choose()
    }

    /// Chooses the next own move, and keeps it, and the own frames that it lets be made. It stops
    /// at a move that is not legal, once all is synced.
    fn choose<S: Station, P: Pilot, R: Rng>(
        &mut self,
        station: &mut S,
        pilot: &mut P,
        chance: &mut R,
    ) -> Result<(), Stop>
        requires playing { IsPlaying (S.history station.old) self.old }
        requires chooses { may_choose self.old.peer.game self.old.peer.me self.old.peer.entries ≡ true }
        ensures { Chooses (chooser (P.plan pilot.old) (R.stream chance.old)) (chooser (P.plan pilot.new) (R.stream chance.new)) result (S.history station.old) (S.history station.new) self.old self.new }
    {
        if let Moves::OwnMove(turn, fault) = choose_move(&mut self.peer, pilot, chance) {
            self.sync(station)?;
            return Err(Stop::OwnMove(turn, fault));
        }
        if !self.keep_next(station) {
            return Err(Stop::KeepFault);
        }
        self.advance(station)
    }

    /// Chooses own moves as long as one may be chosen.
    pub(crate) fn choose_all<S: Station, P: Pilot, R: Rng>(
        &mut self,
        station: &mut S,
        pilot: &mut P,
        chance: &mut R,
    ) -> Result<(), Stop>
        requires playing { IsPlaying (S.history station.old) self.old }
        ensures { Plays (chooser (P.plan pilot.old) (R.stream chance.old)) (chooser (P.plan pilot.new) (R.stream chance.new)) result (S.history station.old) (S.history station.new) self.old self.new }
    {
        while self.may_choose() {
            self.choose(station, pilot, chance)?;
            self.facts();
        }
        Ok(())
    }
}
