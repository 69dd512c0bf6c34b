//! Every interleaving of a small match: the graph of its states, breadth first.
//!
//! A state is the logs of all honest players, and is kept once, by a digest of them. A table has
//! no copy, so it is made again from the steps that led to its state.

use crate::plain::audits::{agrees_on_all, audit};
use crate::plain::checks::check_table;
use crate::plain::plain_steps::{Outcome, log_in, outcome_of};
use crate::plain::possible::{steps_at, table_behind};
use crate::plain::taking::{go_on, take_so};
use crate::plain::worlds::{Trouble, World, hold};
use definitions::{Digest, PlayerId};
use indexmap::IndexMap;
use schedule::{Stand, Step, Table};
use session_log::LogWriter;
use sha2::{Digest as _, Sha256};
use std::alloc::Global;

/// Behind a stop it is gone on from each so many states.
const BETWEEN_STOPS: usize = 3;

/// The most states that are kept of a match.
const MOST_STATES: usize = 1_000_000;

/// How a state was come to: from which one, by which step, and behind how many.
#[derive(Clone, Copy)]
struct Came {
    from: usize,
    step: Option<Step>,
    depth: u32,
}

/// How many states there are, how many steps were taken from them, how many of these changed a
/// log, and how many states are ends: neither a choice nor a frame changes anything there.
#[derive(Clone, Copy, Debug, PartialEq, Eq)]
pub struct Counts {
    pub states: usize,
    pub steps: u32,
    pub changes: u32,
    pub ends: u32,
}

/// The states of a match that were come to so far, and the steps that were taken last.
#[derive(Drop)]
pub struct Graph {
    seen: IndexMap<Digest, Came>,
    pub counts: Counts,
    pub trail: Vec<Step>,
}

/// A step that leads away from a state, and what is to come of it.
#[derive(Drop)]
struct Branch {
    step: Step,
    outcome: Outcome,
}

/// A state behind this one, which was come to behind so many steps, by a step.
fn came_by(from: usize, step: Step, depth: u32) -> Came {
    let depth = depth.saturating_add(1);
    Came {
        from,
        step: Some(step),
        depth,
    }
}

/// Whether the step is a stop.
fn is_stop(step: &Step) -> bool {
    matches!(step, Step::Stop { .. })
}

/// Whether the step is to change a log.
fn is_change(table: &Table, outcome: &Outcome) -> bool {
    match (log_in(table, outcome.player), &outcome.log) {
        (Some(log), Some(plain)) => log != plain.as_slice(),
        _ => false,
    }
}

/// Puts the last 32 of these bytes there, if there are as many.
fn put_last(last: &mut [u8; 32], bytes: &[u8]) {
    if let Some(digest) = bytes.last_chunk::<32>() {
        *last = *digest;
    }
}

/// The digest of a player's log, as its bytes end.
fn log_digest(table: &Table, player: PlayerId) -> [u8; 32] {
    let mut writer = LogWriter::new(table.session(), player);
    let mut last = [player; 32];
    if let Some(log) = log_in(table, player) {
        for entry in log {
            let mut out = [0; 96];
            let count = writer.put(entry, &mut out);
            put_last(&mut last, out.get(..count).unwrap_or(&[]));
        }
    }
    last
}

/// The digest of all logs.
fn key_of(table: &Table) -> Digest {
    let mut hasher = Sha256::new();
    for player in 0..table.session().players() {
        hasher.update(&log_digest(table, player));
    }
    let bytes = hasher.finalize();
    Digest { bytes }
}

/// Adds a step that leads away.
fn put_branch(branches: &mut Vec<Branch>, step: Step, outcome: Outcome) -> Result<(), Trouble> {
    let branch = Branch { step, outcome };
    branches.push(branch)?;
    Ok(())
}

/// Whether all of these steps are stops.
fn are_stops(branches: &[Branch]) -> bool {
    for branch in branches {
        if !is_stop(&branch.step) {
            return false;
        }
    }
    true
}

/// Adds a step.
fn put_step(steps: &mut Vec<Step>, step: &Step) -> Result<(), Trouble> {
    steps.push(*step)?;
    Ok(())
}

impl Graph {
    /// The steps that lead to the state of this number.
    pub fn steps_to(&self, alloc: Global, state: usize) -> Result<Vec<Step>, Trouble> {
        let mut steps = Vec::new(alloc);
        let mut at = state;
        for _step in 0..MOST_STATES {
            match self.seen.get_index(at) {
                None => break,
                Some((_key, came)) => match came.step {
                    None => break,
                    Some(step) => {
                        steps.push(step)?;
                        at = came.from;
                    }
                },
            }
        }
        steps.reverse();
        Ok(steps)
    }

    /// Behind how many steps the state was come to.
    fn depth_of(&self, state: usize) -> u32 {
        match self.seen.get_index(state) {
            None => 0,
            Some((_key, came)) => came.depth,
        }
    }

    /// A graph of no states.
    pub fn new(alloc: Global) -> Graph {
        let seen = IndexMap::new(alloc);
        let trail = Vec::new(alloc);
        let counts = Counts {
            states: 0,
            steps: 0,
            changes: 0,
            ends: 0,
        };
        Graph {
            seen,
            counts,
            trail,
        }
    }

    /// Keeps the table's state, if it is new.
    fn keep(&mut self, table: &Table, came: &Came) -> Result<(), Trouble> {
        let key = key_of(table);
        if self.seen.get(&key).is_none() {
            self.seen.insert(key, *came)?;
            self.counts.states = self.seen.len();
        }
        Ok(())
    }

    /// Takes the step at the state's own table, if it is to change no log, or else adds it to the
    /// others.
    fn stay_or_branch(
        &mut self,
        alloc: Global,
        world: &World,
        table: &mut Table,
        step: &Step,
        branches: &mut Vec<Branch>,
    ) -> Result<(), Trouble> {
        let outcome = outcome_of(alloc, &world.ground, table, step)?;
        self.counts.steps = self.counts.steps.saturating_add(1);
        if is_change(table, &outcome) {
            put_branch(branches, *step, outcome)
        } else {
            put_step(&mut self.trail, step)?;
            take_so(table, step, &outcome)
        }
    }

    /// Takes the steps that are to change no log at the state's own table, and gives the others.
    fn stay(
        &mut self,
        alloc: Global,
        world: &World,
        table: &mut Table,
    ) -> Result<Vec<Branch>, Trouble> {
        let mut branches = Vec::new(alloc);
        let steps = steps_at(alloc, world, table)?;
        for step in &steps {
            self.stay_or_branch(alloc, world, table, step, &mut branches)?;
        }
        Ok(branches)
    }

    /// Takes a step that changes a log at this table, behind so many steps.
    fn follow(&mut self, depth: usize, table: &mut Table, branch: &Branch) -> Result<(), Trouble> {
        self.trail.truncate(depth);
        put_step(&mut self.trail, &branch.step)?;
        self.counts.changes = self.counts.changes.saturating_add(1);
        take_so(table, &branch.step, &branch.outcome)
    }

    /// Takes a step that changes a log, at a table of its own. Behind a stop it now and then goes
    /// on to an end: the state may be known, but not how a peer plays on that was stopped.
    fn branch(
        &mut self,
        alloc: Global,
        world: &World,
        path: &[Step],
        branch: &Branch,
        came: &Came,
    ) -> Result<(), Trouble> {
        let mut table = table_behind(alloc, world, path)?;
        self.follow(path.len(), &mut table, branch)?;
        self.keep(&table, came)?;
        if is_stop(&branch.step) && came.from % BETWEEN_STOPS == 0 {
            go_on(alloc, world, &mut table, &mut self.trail)?;
        }
        Ok(())
    }

    /// What has to hold where neither a choice nor a frame changes anything.
    fn check_end(&mut self, alloc: Global, world: &World, table: &Table) -> Result<(), Trouble> {
        self.counts.ends = self.counts.ends.saturating_add(1);
        if world.hostile != 0 {
            return Ok(());
        }
        let is_finished = table.stand() == Stand::Finished;
        hold(
            is_finished,
            "a match of honest players ends before it is finished",
        )?;
        let report = audit(alloc, table)?;
        agrees_on_all(&world.ground, &report)
    }

    /// Checks a state, and takes each step from it, where it stands behind less than so many.
    fn visit(
        &mut self,
        alloc: Global,
        world: &World,
        state: usize,
        most: u32,
    ) -> Result<(), Trouble> {
        let path = self.steps_to(alloc, state)?;
        let depth = self.depth_of(state);
        self.trail.clear();
        self.trail.extend_from_slice(path.as_slice())?;
        let mut table = table_behind(alloc, world, path.as_slice())?;
        check_table(alloc, &world.ground, &table, &[])?;
        if depth >= most {
            return Ok(());
        }
        let branches = self.stay(alloc, world, &mut table)?;
        if are_stops(branches.as_slice()) {
            self.check_end(alloc, world, &table)?;
        }
        for branch in &branches {
            let came = came_by(state, branch.step, depth);
            self.branch(alloc, world, path.as_slice(), branch, &came)?;
        }
        Ok(())
    }

    /// Walks the graph of the world from its first state, each state behind at most so many steps.
    pub fn walk(&mut self, alloc: Global, world: &World, most: u32) -> Result<(), Trouble> {
        let first = Came {
            from: 0,
            step: None,
            depth: 0,
        };
        let table = table_behind(alloc, world, &[])?;
        self.keep(&table, &first)?;
        for state in 0..MOST_STATES {
            if state >= self.seen.len() {
                break;
            }
            self.visit(alloc, world, state, most)?;
        }
        Ok(())
    }
}
