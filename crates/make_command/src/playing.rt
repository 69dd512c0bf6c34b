//! A match that bots play.

ghost use Rattle.std.specs.Prelude.{◌≡◌, ◌<◌, ◌≤◌, ◌+◌, not, IfOk};
ghost use Rattle.definitions.specs.World.{players_of};
ghost use Rattle.definitions.specs.Steps.{log_of};
ghost use Rattle.schedule.specs.Stands.{stand};
ghost use Rattle.make_command.specs.Bounds.{AreWithin};
ghost use Rattle.make_command.specs.Matches as M;

use crate::counts::Counts;
use arrayvec::ArrayVec;
use definitions::{Nonce, Place, PlayerId};
use grid_world::Session;
use pilots::{BotPilot, Pilot, draw, generator_of};
use rand_core::utils::NextWord;
use rand_pcg::Pcg32;
use schedule::{Stand, Step, Table};
use std::alloc::{AllocError, Global};
use std::marker::Model;

/// The most steps of a match in the session of a number: 8 players choose for 200 turns, each frame comes to the 7 others, and no two
/// frames behind each other are lost.
pub const MOST_STEPS: u32 = 46_400;

/// The words of a nonce.
const WORDS: u32 = 8;

/// A match that bots play. Contracts see it as what the definitions say of it.
#[derive(Drop)]
pub(crate) struct Playing<'a> {
    pub table: Table,
    bots: BotPilot<'a>,
    rest: Pcg32,
    pub counts: Counts,
    was_lost: bool,
}

impl<'a> Model for Playing<'a> {
    ghost use Rattle.std.specs.Prelude.{◌≡◌};
    ghost use Rattle.make_command.specs.Matches.{Match};

    ghost Value = { Match };

    ghost view = { λ p. record { game = p.table.game; logs = p.table.logs; bots = p.bots.generator; rest = p.rest; counts = p.counts; was_lost = p.was_lost } };

    ghost invariant = { λ p. p.bots.game ≡ p.table.game };
}

/// The next nonce of the generator.
#[tactic(auto, unfolding(crate::specs::Matches::nonce_of))]
fn draw_nonce(chance: &mut Pcg32) -> Nonce
    ensures { (result, chance.new) ≡ M.nonce_of chance.old }
{
    let mut words: ArrayVec<u8, 32> = ArrayVec::new();
    for word in 0..WORDS {
        words
            .try_extend_from_slice(&chance.next_word().to_be_bytes())
            .unwrap();
    }
    let mut bytes = [0; 32];
    bytes.copy_from_slice(words.as_slice());
    Nonce { bytes }
}

impl<'a> Playing<'a> {
    /// The match of this number in the session, before its first step. An error comes where memory is refused.
    #[tactic(auto, unfolding(crate::specs::Matches::first_match))]
    pub fn new(alloc: Global, session: &'a Session, number: u64) -> Result<Playing<'a>, AllocError>
        ensures { IfOk result (λ p. p ≡ M.first_match session.now number) }
    {
        let table = Table::new(alloc, session, 0)?;
        Ok(Playing {
            table,
            bots: BotPilot::new(number.wrapping_add(1), session),
            rest: generator_of(number.wrapping_add(2)),
            counts: Counts {
                chosen: 0,
                delivered: 0,
                lost: 0,
                repeated: 0,
            },
            was_lost: false,
        })
    }

    /// Lets a player's bot choose.
    fn choose(&mut self, player: PlayerId)
        requires player { player < players_of self.old.game }
        requires few { self.old.counts.chosen < MOST_STEPS }
        ensures { self.new ≡ M.moved self.old player (log_of self.old.logs player) }
    {
        let Some(choice) = self.table.choice(player) else {
            return;
        };
        let mv = self.bots.choose(&choice.track, choice.turn);
        let nonce = draw_nonce(&mut self.rest);
        let _ = self.table.step(&Step::Choose { player, mv, nonce });
        self.counts.chosen += 1;
    }

    /// Delivers a frame that a player lacks.
    fn deliver(&mut self, from: PlayerId, to: PlayerId, place: Place)
        requires from { from < players_of self.old.game }
        requires to { to < players_of self.old.game }
        requires few { self.old.counts.delivered < MOST_STEPS }
        ensures { self.new ≡ M.delivered self.old to from place }
    {
        let _ = self.table.step(&Step::Deliver { from, to, place });
        self.counts.delivered += 1;
        self.was_lost = false;
    }

    /// Delivers a frame that a player may have.
    fn repeat(&mut self, from: PlayerId, to: PlayerId, place: Place)
        requires from { from < players_of self.old.game }
        requires to { to < players_of self.old.game }
        requires few { self.old.counts.repeated < MOST_STEPS }
        ensures { self.new ≡ M.repeated self.old to from place }
    {
        let _ = self.table.step(&Step::Deliver { from, to, place });
        self.counts.repeated += 1;
    }

    /// Loses a frame.
    fn lose(&mut self)
        requires few { self.old.counts.lost < MOST_STEPS }
        ensures { self.new ≡ M.lost self.old }
    {
        self.counts.lost += 1;
        self.was_lost = true;
    }

    /// Delivers a frame up to this place, and then the one of this place.
    fn deliver_behind(&mut self, from: PlayerId, to: PlayerId, place: Place)
        requires from { from < players_of self.old.game }
        requires to { to < players_of self.old.game }
        requires place { place < 4294967295 }
        requires delivered { self.old.counts.delivered < MOST_STEPS }
        requires repeated { self.old.counts.repeated < MOST_STEPS }
        ensures { self.new ≡ M.delivered_behind self.old to from place }
    {
        let again = draw(&mut self.rest, place + 1);
        self.repeat(from, to, again);
        self.deliver(from, to, place);
    }

    /// Brings a frame to a player that lacks it, or loses it, as is drawn.
    fn bring(&mut self, from: PlayerId, to: PlayerId, place: Place)
        requires from { from < players_of self.old.game }
        requires to { to < players_of self.old.game }
        requires place { place < 4294967295 }
        requires delivered { self.old.counts.delivered < MOST_STEPS }
        requires repeated { self.old.counts.repeated < MOST_STEPS }
        requires lost { self.old.counts.lost < MOST_STEPS }
        ensures { self.new ≡ M.brought self.old to from place }
    {
        let drawn = draw(&mut self.rest, 4);
        if drawn == 0 && !self.was_lost {
            self.lose();
        } else if drawn == 1 {
            self.deliver_behind(from, to, place);
        } else {
            self.deliver(from, to, place);
        }
    }

    /// Takes what comes next, if anything does.
    fn step(&mut self, steps: u32) -> bool
        requires steps { steps < MOST_STEPS }
        requires within { AreWithin self.old.counts steps }
        ensures on { result ≡ not (M.is_over (stand self.old.game self.old.logs)) }
        ensures after { self.new ≡ M.next_by self.old (stand self.old.game self.old.logs) }
        ensures within { AreWithin self.new.counts (steps + 1) }
    {
        self.table.facts();
        self.table.session().facts();
        match self.table.stand() {
            Stand::Moving(player) => {
                self.choose(player);
                true
            }
            Stand::Behind(player, whose, place) => {
                self.bring(whose, player, place);
                true
            }
            Stand::Caught(_) | Stand::Held(_) | Stand::Finished => false,
        }
    }

    /// Plays the match to its end, or as many steps as one has at most.
    pub fn play(&mut self)
        requires { AreWithin self.old.counts 0 }
        ensures { self.new ≡ M.played M.most_steps self.old }
    {
        for steps in 0..MOST_STEPS {
            if !self.step(steps) {
                return;
            }
        }
    }
}
