//! A table: the peers of all honest players of a match.

ghost use Rattle.std.specs.Prelude.{◌≡◌, ◌<◌, ℕ, IsTrue, IfOk, Option, Some, option_map, map, replicate};
ghost use Rattle.definitions.specs.Lists.{EachIs, item_or};
ghost use Rattle.definitions.specs.World.{players_of};
ghost use Rattle.definitions.specs.Honest.{made_count};
ghost use Rattle.definitions.specs.Steps as D;
ghost use Rattle.peer_core.specs.Views as V;
ghost use Rattle.schedule.specs.Steps as S;
ghost use Rattle.schedule.specs.Steps.{HasPlayers, first_logs};
ghost use Rattle.schedule.specs.Tallies.{no_tally, tallied};
ghost use Rattle.schedule.specs.Tables.{IsStepped};
ghost use Rattle.schedule.specs.Tables as T;
ghost use Rattle.schedule.specs.Theorem.{HoldsOfAll};

use crate::seats::{choose, hear, seat_all, stop};
use crate::steps::{Step, StepAnswer};
use crate::tallies::{Tally, blank_tallies, count};
use definitions::{Entry, Move, Nonce, Place, PlayerId, TurnFrame};
use grid_world::Session;
use peer_core::{Choice, Peer};
use std::alloc::{AllocError, Global};
use std::marker::Model;

/// The peers of all honest players of a match. Contracts see it as the session, the logs of its honest players and their tallies.
#[derive(Drop)]
pub struct Table {
    session: Session,
    // in order of player, none for a hostile one
    seats: Vec<Option<Peer>>,
    tallies: Vec<Tally>,
}

impl Model for Table {
    ghost use Rattle.schedule.specs.Tables.{TableState, IsTable, logs_at};

    ghost Value = { TableState };

    ghost view = { λ t. record { game = t.session; logs = logs_at t.seats.items; tallies = t.tallies.items } };

    ghost invariant = { λ t. IsTable t.session t.seats.items t.tallies.items };
}

impl Table {
    /// A table at which the session's players sit down, each honest one with an empty log. Bit `q` of `hostile` says that player
    /// `q` is hostile; bits of no player are passed over. It takes all memory that the table will need, that of each honest
    /// player's peer. AllocError comes where that memory is refused.
    pub fn new(alloc: Global, session: &Session, hostile: u64) -> Result<Table, AllocError>
        ensures { IfOk result (λ t. t ≡ record { game = session.now; logs = first_logs session.now hostile; tallies = replicate (players_of session.now) no_tally }) }
    {
        session.facts();
        let copy = session.copy(alloc)?;
        let seats = seat_all(alloc, session, hostile)?;
        let tallies = blank_tallies(alloc, session)?;
        Ok(Table {
            session: copy,
            seats,
            tallies,
        })
    }

    /// Whatever steps were taken: each log is honest and all together are authentic, no honest player is named by a finding,
    /// what is accepted of one is what it chose, two logs with different moves of a hostile player convict it, and no group of
    /// honest players waits for itself. Nothing but these facts.
    pub fn facts(&self)
        ensures { HoldsOfAll self.now.game self.now.logs }
    {
        self.session.facts();
        let _ = &self.seats;
    }

    /// The session that the table was made for.
    pub fn session(&self) -> &Session
        ensures { result.now ≡ self.now.game }
    {
        &self.session
    }

    /// The player's peer, if it is honest.
    pub(crate) fn peer(&self, player: PlayerId) -> Option<&Peer>
        requires { player < players_of self.now.game }
        ensures { option_map (λ p. p.now) result ≡ T.peer_of self.now player }
    {
        self.session.facts();
        match &self.seats[usize::from(player)] {
            None => None,
            Some(peer) => Some(peer),
        }
    }

    /// Whether the player is honest.
    pub fn is_honest(&self, player: PlayerId) -> bool
        requires { player < players_of self.now.game }
        ensures { result ≡ D.has_log self.now.logs player }
    {
        match self.peer(player) {
            None => false,
            Some(_) => true,
        }
    }

    /// The log of an honest player, in the order in which its entries came.
    pub fn log_of(&self, player: PlayerId) -> &[Entry]
        requires player { player < players_of self.now.game }
        requires honest { IsTrue (D.has_log self.now.logs player) }
        ensures { D.log_of self.now.logs player ≡ Some result.now }
    {
        match self.peer(player) {
            None => unreachable!(),
            Some(peer) => peer.entries(),
        }
    }

    /// How many frames an honest player made.
    pub fn made_of(&self, player: PlayerId) -> Place
        requires player { player < players_of self.now.game }
        requires honest { IsTrue (D.has_log self.now.logs player) }
        ensures { option_map made_count (D.log_of self.now.logs player) ≡ Some result }
    {
        match self.peer(player) {
            None => unreachable!(),
            Some(peer) => peer.made_count(),
        }
    }

    /// The turn that an honest player chooses next, and where it stands by then. None of a hostile player.
    pub fn choice(&self, player: PlayerId) -> Option<Choice>
        requires player { player < players_of self.now.game }
        ensures { result ≡ option_map (λ h. V.choice_of self.now.game player h) (D.log_of self.now.logs player) }
    {
        match self.peer(player) {
            None => None,
            Some(peer) => Some(peer.choice()),
        }
    }

    /// How often the peer of an honest player gave each answer to frames since the table was made, stops or not.
    pub fn tally(&self, player: PlayerId) -> Tally
        requires player { player < players_of self.now.game }
        requires honest { IsTrue (D.has_log self.now.logs player) }
        ensures { result ≡ item_or self.now.tallies player no_tally }
    {
        self.tallies[usize::from(player)]
    }

    /// Takes one step, and lets the peer that it named last make what it may make then. NotHonest comes exactly where a hostile
    /// player chooses, is stopped, gets a frame or is to deliver one that it made; else NotHostile exactly where the sender of a
    /// hostile frame is honest, NoFrame exactly where no frame of that place was made, and BadCut exactly where the log has
    /// fewer entries or a frame that its owner made would be cut off. None of these changes anything; of a choice or a
    /// frame that the peer refuses no log changes, and an answer to a frame is counted.
    pub fn step(&mut self, step: &Step) -> StepAnswer
        requires players { HasPlayers self.old.game step.now }
        ensures answer { result ≡ S.answer self.old.game self.old.logs step.now }
        ensures after { self.new ≡ record { game = self.old.game; logs = D.after self.old.game self.old.logs (S.meant step.now); tallies = tallied self.old.tallies (S.mover step.now) result } }
        ensures refused { IsTrue (S.is_refusal result) → self.new.logs ≡ self.old.logs }
    {
        match *step {
            Step::Choose { player, mv, nonce } => self.choose(player, mv, nonce),
            Step::Deliver { from, to, place } => self.deliver(from, to, place),
            Step::Hostile { from, to, frame } => self.bring(from, to, &frame),
            Step::Stop { player, keep } => self.stop(player, keep),
        }
    }

    /// Takes the steps one after another.
    pub fn step_all(&mut self, steps: &[Step])
        requires players { EachIs (HasPlayers self.old.game) steps.now }
        ensures game { self.new.game ≡ self.old.game }
        ensures after { self.new.logs ≡ D.run self.old.game self.old.logs (map S.meant steps.now) }
    {
        for step in steps {
            let _ = self.step(step);
        }
    }

    /// Lets a player choose.
    fn choose(&mut self, player: PlayerId, mv: Move, nonce: Nonce) -> StepAnswer
        requires { player < players_of self.old.game }
        ensures { IsStepped self.old (Step.Choose player mv nonce) result self.new }
    {
        self.session.facts();
        choose(&mut self.seats[usize::from(player)], mv, nonce)
    }

    /// Stops a player's peer.
    fn stop(&mut self, player: PlayerId, keep: u32) -> StepAnswer
        requires { player < players_of self.old.game }
        ensures { IsStepped self.old (Step.Stop player keep) result self.new }
    {
        self.session.facts();
        stop(&mut self.seats[usize::from(player)], keep)
    }

    /// Hands a frame to a player, with which the logs are authentic still, and counts the answer.
    fn hear(&mut self, from: PlayerId, to: PlayerId, frame: &TurnFrame) -> StepAnswer
        requires to { to < players_of self.old.game }
        requires authentic { D.AreAuthentic (T.logs_with self.old from to frame.now) }
        ensures answer { result ≡ T.heard_answer self.old from to frame.now }
        ensures after { self.new ≡ record { game = self.old.game; logs = T.logs_with self.old from to frame.now; tallies = tallied self.old.tallies to result } }
    {
        self.session.facts();
        let at = usize::from(to);
        let said = hear(&mut self.seats[at], from, frame);
        count(&mut self.tallies, at, &said);
        said
    }

    /// Delivers the frame that a player made at this place.
    fn deliver(&mut self, from: PlayerId, to: PlayerId, place: Place) -> StepAnswer
        requires from { from < players_of self.old.game }
        requires to { to < players_of self.old.game }
        ensures { IsStepped self.old (Step.Deliver from to place) result self.new }
    {
        self.facts();
        if !self.is_honest(from) || !self.is_honest(to) {
            return StepAnswer::NotHonest;
        }
        match self.made_at(from, place) {
            None => StepAnswer::NoFrame,
            Some(frame) => self.hear(from, to, &frame),
        }
    }

    /// The frame that a player made at this place.
    fn made_at(&self, player: PlayerId, place: Place) -> Option<TurnFrame>
        requires { player < players_of self.now.game }
        ensures { result ≡ D.made_at (D.log_of self.now.logs player) place }
    {
        match self.peer(player) {
            None => None,
            Some(peer) => peer.made(place),
        }
    }

    /// Brings a hostile player's frame.
    fn bring(&mut self, from: PlayerId, to: PlayerId, frame: &TurnFrame) -> StepAnswer
        requires from { from < players_of self.old.game }
        requires to { to < players_of self.old.game }
        ensures { IsStepped self.old (Step.Hostile from to frame.now) result self.new }
    {
        self.facts();
        if !self.is_honest(to) {
            return StepAnswer::NotHonest;
        }
        if self.is_honest(from) {
            return StepAnswer::NotHostile;
        }
        self.hear(from, to, frame)
    }
}
