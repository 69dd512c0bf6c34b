//! Drawn schedules of larger matches, by seed: some hundred steps, and then on to an end.

use crate::plain::audits::{agrees_on_all, audit};
use crate::plain::checks::check_table;
use crate::plain::dice::{Dice, Match, match_of};
use crate::plain::drawing::{any_step, asked_of};
use crate::plain::plain_steps::log_in;
use crate::plain::scripts::told;
use crate::plain::taking::take;
use crate::plain::worlds::{Trouble, hold};
use definitions::PlayerId;
use schedule::{Stand, Step, Table, has_players};
use std::alloc::Global;
use std::process::Abort;
use std::test::Fail;

/// How many matches are drawn, one for each seed.
const SEEDS: u64 = 24;

/// How many steps of a match are drawn at least.
const FEWEST_DRAWN: u32 = 300;

/// The table is checked behind each so many steps.
const BETWEEN_CHECKS: u32 = 50;

/// The most steps that a match may need to come to an end.
const MOST_ASKED: u32 = 20_000;

/// A match that is played, its steps so far, and their number.
#[derive(Drop)]
struct Played {
    table: Table,
    trail: Vec<Step>,
    count: u32,
    // how many entries of each log were checked before and stand in it still
    checked: Vec<usize>,
}

impl Played {
    /// Checks the table, of the logs what wasn't checked before.
    fn check(&mut self, alloc: Global, game: &Match) -> Result<(), Trouble> {
        let ground = &game.world.ground;
        check_table(alloc, ground, &self.table, self.checked.as_slice())?;
        self.checked.clear();
        for player in 0..ground.players {
            let count = log_in(&self.table, player).map_or(0, |log| log.len());
            self.checked.push(count)?;
        }
        Ok(())
    }

    /// Behind a stop no more than what was kept is checked.
    fn note_stop(&mut self, player: PlayerId, keep: u32) {
        let at = usize::from(player);
        if at < self.checked.len() {
            self.checked[at] = self.checked[at].min(keep as usize);
        }
    }

    /// Takes a step, and each so many steps compares what comes of it, and checks the table.
    fn take(&mut self, alloc: Global, game: &Match, step: &Step) -> Result<(), Trouble> {
        self.trail.push(*step)?;
        self.count = self.count.saturating_add(1);
        if let Step::Stop { player, keep } = *step {
            self.note_stop(player, keep);
        }
        if self.count % BETWEEN_CHECKS == 0 {
            take(alloc, &game.world, &mut self.table, step)?;
            return self.check(alloc, game);
        }
        if !has_players(step, self.table.session()) {
            return Err(Trouble::Broken("a step names a player whom the session lacks"));
        }
        let _ = self.table.step(step);
        Ok(())
    }

    /// Takes drawn steps, and now and then one that the stand asks for.
    fn take_drawn(&mut self, alloc: Global, game: &Match, dice: &mut Dice) -> Result<(), Trouble> {
        let steps = dice.below(900).saturating_add(FEWEST_DRAWN);
        for _step in 0..steps {
            let step = if dice.once_in(3) {
                asked_of(game, &self.table, dice)
            } else {
                any_step(game, &self.table, dice)
            };
            if let Some(step) = step {
                self.take(alloc, game, &step)?;
            }
        }
        Ok(())
    }

    /// Takes the steps that the stand asks for, to the end.
    fn take_asked(&mut self, alloc: Global, game: &Match, dice: &mut Dice) -> Result<(), Trouble> {
        for _step in 0..MOST_ASKED {
            match asked_of(game, &self.table, dice) {
                None => return Ok(()),
                Some(step) => self.take(alloc, game, &step)?,
            }
        }
        Err(Trouble::Broken("a match comes to no end"))
    }

    /// What has to hold of the end.
    fn check_end(&self, alloc: Global, game: &Match) -> Result<(), Trouble> {
        check_table(alloc, &game.world.ground, &self.table, &[])?;
        if game.world.hostile != 0 {
            return Ok(());
        }
        hold(
            self.table.stand() == Stand::Finished,
            "a match of honest players ends before it is finished",
        )?;
        agrees_on_all(&game.world.ground, &audit(alloc, &self.table)?)
    }

    /// Plays the match.
    fn play(&mut self, alloc: Global, game: &Match, dice: &mut Dice) -> Result<(), Trouble> {
        self.take_drawn(alloc, game, dice)?;
        self.take_asked(alloc, game, dice)?;
        self.check_end(alloc, game)
    }
}

/// How many matches ended so.
#[derive(Clone, Copy)]
struct Ends {
    finished: u32,
    caught: u32,
    held: u32,
}

impl Ends {
    /// One end more.
    fn add(&mut self, stand: Stand) {
        match stand {
            Stand::Finished => self.finished = self.finished.saturating_add(1),
            Stand::Caught(_) => self.caught = self.caught.saturating_add(1),
            Stand::Held(_) => self.held = self.held.saturating_add(1),
            Stand::Moving(_) | Stand::Behind(..) => {}
        }
    }
}

/// A match of which nothing is played yet.
fn unplayed(alloc: Global, game: &Match) -> Result<Played, Fail> {
    let table = Table::new(alloc, &game.world.session, game.world.hostile)?;
    Ok(Played {
        table,
        trail: Vec::new(alloc),
        count: 0,
        checked: Vec::new(alloc),
    })
}

/// Plays the match of the seed, and says how it stands at its end.
fn end_of(rt: &impl Abort, alloc: Global, seed: u64) -> Result<Stand, Fail> {
    let mut dice = Dice::new(seed);
    let game = match_of(alloc, &mut dice, seed)?;
    let mut played = unplayed(alloc, &game)?;
    let came = played.play(alloc, &game, &mut dice);
    let text = told(alloc, &game.world, played.trail.as_slice(), &came)?;
    assert!(rt; came.is_ok(), "seed {seed}: {text}{}", game.text);
    Ok(played.table.stand())
}

#[test]
fn drawn_schedules_keep_to_the_rules(rt: HostRuntime) -> Result<(), Fail> {
    let alloc = rt.alloc();
    let mut ends = Ends {
        finished: 0,
        caught: 0,
        held: 0,
    };
    for seed in 0..SEEDS {
        ends.add(end_of(&rt, alloc, seed)?);
    }
    // each kind of end comes
    assert!(rt; ends.finished > 0 && ends.caught > 0 && ends.held > 0);
    Ok(())
}
