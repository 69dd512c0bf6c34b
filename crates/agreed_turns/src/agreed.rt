//! The agreed turns of all players.

ghost use Rattle.std.specs.Prelude.{◌≡◌, ◌<◌, ◌++◌, ℕ, List, [], replicate, set, slice_get, IfOk, Some};
ghost use Rattle.definitions.specs.declared.logs.Entry.{Entry};
ghost use Rattle.definitions.specs.World.{players_of};
ghost use Rattle.agreed_turns.specs.Agreed as A;
ghost use Rattle.agreed_turns.specs.Heads.{Hold};
ghost use Rattle.agreed_turns.specs.States as S;

use crate::turns::PlayerTurns;
use definitions::{Entry, PlayerId, TurnFrame};
use frame_index::FrameIndex;
use grid_world::Session;
use move_rules::Walker;
use std::alloc::{AllocError, Global};
use std::marker::Model;

/// The turns on which the logs of a session's players agree. The log of each number, counted from 0, is that of the player of this
/// number.
#[derive(Drop)]
pub struct AgreedTurns {
    session: Session,
    walker: Walker,
    players: Vec<PlayerTurns>,
}

impl Model for AgreedTurns {
    ghost use Rattle.agreed_turns.specs.States.{AgreedState, AreSound};

    ghost Value = { AgreedState };

    ghost view = { λ a. record { game = a.session; players = a.players.items } };

    ghost invariant = { λ a. AreSound a.session a.players.items };
}

impl AgreedTurns {
    /// Of logs without entries, one for each player. All memory is taken here, from `alloc`, and an error comes where that is wanting.
    pub fn new(alloc: Global, session: &Session) -> Result<AgreedTurns, AllocError>
        ensures { IfOk result (λ a. S.IsOf session.now (replicate (players_of session.now) []) a) }
    {
        let mut players = Vec::with_capacity(alloc, usize::from(session.players()))?;
        for player in 0..session.players() {
            players.push(PlayerTurns::new(alloc, session, player)?)?;
        }
        Ok(AgreedTurns {
            session: session.copy(alloc)?,
            walker: Walker::new(alloc, session.grid())?,
            players,
        })
    }

    /// There are as many players as the session has, and what holds of each: nothing but that fact.
    fn facts(&self)
        ensures { S.AreSound self.now.game self.now.players }
    {
        let _ = &self.players;
    }

    /// The log of this number has a frame of the player's stream.
    fn heed_frame(&mut self, index: &FrameIndex, player: PlayerId, log: PlayerId, frame: &TurnFrame)
        requires { log < players_of self.old.game }
        ensures game { self.new.game ≡ self.old.game }
        ensures heeds { S.HeedsFrame self.old.game index.now player log frame.now self.old.players self.new.players }
    {
        if player < self.session.players() {
            self.players[usize::from(player)].heed(
                index,
                &self.session,
                &mut self.walker,
                player,
                log,
                frame,
            );
        }
    }

    /// The owner's log has the entry.
    fn heed_entry(&mut self, got: &FrameIndex, made: &FrameIndex, owner: PlayerId, entry: &Entry)
        requires { owner < players_of self.old.game }
        ensures game { self.new.game ≡ self.old.game }
        ensures heeds { S.HeedsEntry self.old.game got.now made.now owner entry.now self.old.players self.new.players }
    {
        match entry {
            Entry::Chose { .. } => {}
            Entry::Made(frame) => self.heed_frame(made, owner, owner, frame),
            Entry::Got(player, frame) => {
                // what a log has of its own owner is what that made
                if *player != owner {
                    self.heed_frame(got, *player, owner, frame);
                }
            }
        }
    }

    /// The owner's log has these entries at its end, and the indices have taken them: the one what the logs got, and the other one what
    /// their owners made. It takes no memory.
    pub fn heed(&mut self, got: &FrameIndex, made: &FrameIndex, owner: PlayerId, entries: &[Entry])
        requires { owner < players_of self.old.game }
        ensures game { self.new.game ≡ self.old.game }
        ensures heeded { (logs : List (List Entry)) (h : List Entry) → slice_get logs owner ≡ Some h → S.IsOf self.old.game logs self.old → Hold self.old.game got.now made.now owner (h ++ entries.now) → S.IsOf self.old.game (set logs owner (h ++ entries.now)) self.new }
    {
        self.facts();
        for entry in entries {
            self.heed_entry(got, made, owner, entry);
        }
    }

    /// How many turns of the player are agreed: some log resolves the turn, and all logs that do give one move.
    pub fn agreed(&self, player: PlayerId) -> u32
        requires { player < players_of self.now.game }
        ensures { (logs : List (List Entry)) → S.IsOf self.now.game logs self.now → result ≡ A.agreed_count self.now.game logs player }
    {
        self.players[usize::from(player)].agreed()
    }

    /// Whether all turns of all players are agreed.
    pub fn is_whole(&self) -> bool
        ensures { (logs : List (List Entry)) → S.IsOf self.now.game logs self.now → result ≡ A.is_whole self.now.game logs }
    {
        for player in 0..self.session.players() {
            if self.agreed(player) != self.session.turns() {
                return false;
            }
        }
        true
    }
}
