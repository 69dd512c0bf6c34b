//! Turns that are played.

ghost use Rattle.std.specs.Prelude.{◌≡◌, ◌+◌, ◌<◌, ◌≤◌, IfOk, List, length};
ghost use Rattle.definitions.specs.World.{players_of};
ghost use Rattle.playout.specs.Hits.{plus};
ghost use Rattle.playout.specs.Hits as H;
ghost use Rattle.playout.specs.Lockstep.{turn_moves};
ghost use Rattle.playout.specs.Playing.{AreLegalNow, IsLockstep, after_own_turn, after_turn, fresh, standing_of};
ghost use Rattle.definitions.specs.declared.world.Move.{Move};

use crate::hits::{Score, own_score};
use crate::standing::{Standing, count, play, reseat, seats};
use definitions::{Move, PlayerId, Track};
use grid_world::Session;
use std::alloc::{AllocError, Global};
use std::marker::Model;

/// The players of a session, as far as they have played: the track and the score of each. Contracts see it as the number of
/// turns played, and the list of the players' standings.
#[derive(Drop)]
pub struct Playout {
    // those of all players, and own ones
    turns: u32,
    // in order of player
    standings: Vec<Standing>,
}

impl Model for Playout {
    ghost use Rattle.playout.specs.Playing.{Played};
    ghost use Rattle.playout.specs.Bounds.{IsCounted};

    ghost Value = { Played };

    ghost view = { λ p. record { turns = p.turns; standings = p.standings.items } };

    ghost invariant = { λ p. IsCounted p.turns p.standings.items };
}

impl Playout {
    /// The players of the session at their starts, before the first turn. Room for them is taken here, and no other call takes
    /// any. AllocError comes where that memory is refused.
    pub fn new(alloc: Global, session: &Session) -> Result<Playout, AllocError>
        ensures fresh { IfOk result (λ p. p ≡ fresh session.now) }
        ensures players { IfOk result (λ p. length p.standings ≡ players_of session.now) }
        ensures lockstep { IfOk result (λ p. (moves : List (List Move)) → IsLockstep session.now moves p) }
    {
        let standings = seats(alloc, session)?;
        Ok(Playout {
            turns: 0,
            standings,
        })
    }

    /// Puts all players back to their starts, as `new` has them, before the first turn.
    pub fn restart(&mut self, session: &Session)
        requires players { length self.old.standings ≡ players_of session.now }
        ensures fresh { self.new ≡ fresh session.now }
    {
        reseat(session, &mut self.standings);
        self.turns = 0;
    }

    /// Plays a turn of all players: one legal move of each, in order. Each player's strike is counted at the cells that the
    /// others come to in this turn.
    pub fn turn(&mut self, session: &Session, moves: &[Move])
        requires players { length self.old.standings ≡ players_of session.now }
        requires moves { AreLegalNow session.now self.old moves.now }
        requires left { self.old.turns < session.now.turns }
        ensures after { self.new ≡ after_turn session.now moves.now self.old }
        ensures players { length self.new.standings ≡ length self.old.standings }
        ensures lockstep { (all : List (List Move)) → IsLockstep session.now all self.old → moves.now ≡ turn_moves all self.old.turns → IsLockstep session.now all self.new }
    {
        let _ = session.turns();
        let _ = session.players();
        play(session, moves, &mut self.standings);
        self.turns += 1;
    }

    /// Counts a turn of one player alone: the hits that it gives and takes by its own move against the moves of the others that
    /// are there, in order of player. What stands at its own place among them isn't asked. No player moves.
    pub fn own_turn(&mut self, session: &Session, me: PlayerId, own: &Move, others: &[Option<Move>])
        requires players { length self.old.standings ≡ players_of session.now }
        requires me { me < players_of session.now }
        requires one_each { length others.now ≡ players_of session.now }
        requires left { self.old.turns < session.now.turns }
        ensures after { self.new ≡ after_own_turn session.now me own.now others.now self.old }
        ensures players { length self.new.standings ≡ length self.old.standings }
        ensures score { (standing_of self.new me).score ≡ plus (standing_of self.old me).score (H.own_score session.now me own.now others.now) }
    {
        let _ = session.turns();
        let _ = session.players();
        let score = own_score(session, me, own, others);
        count(&mut self.standings, usize::from(me), score);
        self.turns += 1;
    }

    /// How many turns were played, those of all players and own ones.
    pub fn turns(&self) -> u32
        ensures { result ≡ self.now.turns }
    {
        self.turns
    }

    /// The hits that the player gave and took in the turns played.
    pub fn score(&self, player: PlayerId) -> Score
        requires { player < length self.now.standings }
        ensures { result ≡ (standing_of self.now player).score }
    {
        self.standings[usize::from(player)].score
    }

    /// Where the player stands after the turns of all players that were played, and its charge.
    pub fn world_at(&self, player: PlayerId) -> Track
        requires { player < length self.now.standings }
        ensures { result ≡ (standing_of self.now player).track }
    {
        self.standings[usize::from(player)].track
    }
}
