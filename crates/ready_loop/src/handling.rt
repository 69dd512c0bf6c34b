//! Frames that came are handled.

ghost use Rattle.std.specs.Prelude.{◌≡◌, ◌<◌, ◌+◌, ◌^◌, true, Some, length, slice_get};
ghost use Rattle.definitions.specs.Advance as A;
ghost use Rattle.definitions.specs.Findings.{is_clean};
ghost use Rattle.loop_rules.specs.Told.{IsTold};
ghost use Rattle.ready_loop.specs.States.{kept_of, view_of};
ghost use Rattle.definitions.specs.World.{players_of};
ghost use Rattle.ready_loop.specs.Handling.{KeepsMade, Advances, Hears, Handles, IsHearing, IsGot, has_next, asked, passed_as, cleared};

use crate::ready::Loop;
use crate::stops::Stop;
use definitions::{GotAnswer, PlayerId};
use peer_core::is_logged;
use peer_rules::{Arrival, Phase};
use socket_station::Station;

impl Loop {
    /// Keeps the own frames that were just made.
    fn keep_made<S: Station>(&mut self, station: &mut S) -> Result<(), Stop>
        requires told { IsTold (S.history station.old) (view_of self.old) }
        requires running { self.old.phase ≡ Phase.Running }
        requires made { A.advance self.old.peer.game self.old.peer.me (kept_of self.old) ≡ self.old.peer.entries }
        ensures { KeepsMade result (S.history station.old) (S.history station.new) self.old self.new }
    {
        self.facts();
        while self.kept < self.peer.entries().len() {
            if !self.keep_next(station) {
                return Err(Stop::KeepFault);
            }
        }
        Ok(())
    }

    /// Makes the own frames that the protocol lets be made, and keeps them.
    pub(crate) fn advance<S: Station>(&mut self, station: &mut S) -> Result<(), Stop>
        requires told { IsTold (S.history station.old) (view_of self.old) }
        requires running { self.old.phase ≡ Phase.Running }
        requires kept { self.old.kept ≡ length self.old.peer.entries }
        ensures { Advances result (S.history station.old) (S.history station.new) self.old self.new }
    {
        self.peer.advance();
        self.keep_made(station)
    }

    /// Keeps the entry of the first frame that waits, and the own frames that it lets be made.
    fn keep_got<S: Station>(&mut self, station: &mut S) -> Result<(), Stop>
        requires told { IsTold (S.history station.old) (view_of self.old) }
        requires got { IsGot self.old }
        requires few { self.old.handled + 1 < 2 ^ 64 }
        ensures { Hears result (S.history station.old) (S.history station.new) self.old self.new }
    {
        if !self.keep_next(station) {
            return Err(Stop::KeepFault);
        }
        self.go_on();
        self.advance(station)
    }

    /// One more of the frames that wait is handled.
    fn go_on(&mut self)
        requires { self.old.handled + 1 < 2 ^ 64 }
        ensures { self.new ≡ record self.old { handled = self.old.handled + 1 } }
    {
        self.handled += 1;
    }

    /// A frame of the player was far: it is to be asked for its next place.
    fn ask(&mut self, player: PlayerId)
        requires { player < players_of self.old.peer.game }
        ensures { self.new ≡ asked player self.old }
    {
        let next = self.peer.player(player).next;
        self.table.ask(player, next);
    }

    /// The first frame that waits, of the player, was answered so and makes no entry.
    fn pass_over(&mut self, player: PlayerId, answer: GotAnswer)
        requires player { player < players_of self.old.peer.game }
        requires few { self.old.handled + 1 < 2 ^ 64 }
        ensures { self.new ≡ passed_as answer player self.old }
    {
        if answer == GotAnswer::Far {
            self.ask(player);
        }
        self.handled += 1;
    }

    /// The first frame that waits.
    fn first(&self) -> Arrival
        requires { self.now.handled < length self.now.table.waiting }
        ensures first { slice_get self.now.table.waiting self.now.handled ≡ Some result }
        ensures few { self.now.handled + 1 < 2 ^ 64 }
    {
        self.table.waiting()[self.handled]
    }

    /// Handles the first frame that waits.
    fn hear<S: Station>(&mut self, station: &mut S) -> Result<(), Stop>
        requires next { has_next self.old ≡ true }
        requires hearing { IsHearing (S.history station.old) self.old }
        ensures { Hears result (S.history station.old) (S.history station.new) self.old self.new }
    {
        let arrival = self.first();
        let answer = self.peer.got(arrival.player, &arrival.frame);
        if is_logged(&answer) {
            return self.keep_got(station);
        }
        self.pass_over(arrival.player, answer);
        Ok(())
    }

    /// Whether some frame waits that is to be handled: after a finding none is.
    fn has_next(&self) -> bool
        ensures { result ≡ has_next self.now }
    {
        self.handled < self.table.waiting().len() && self.peer.finding().is_none()
    }

    /// No frame waits any more.
    fn clear(&mut self)
        ensures { self.new ≡ cleared self.old }
    {
        self.table.clear_waiting();
        self.handled = 0;
    }

    /// Handles the frames that wait, up to the first that makes a finding.
    pub(crate) fn handle<S: Station>(&mut self, station: &mut S) -> Result<(), Stop>
        requires hearing { IsHearing (S.history station.old) self.old }
        requires first { self.old.handled ≡ 0 }
        ensures { Handles result (S.history station.old) (S.history station.new) self.old self.new }
    {
        while self.has_next() {
            self.hear(station)?;
        }
        self.clear();
        self.stop_if_caught(station)
    }
}
