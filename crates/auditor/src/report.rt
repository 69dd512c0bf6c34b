//! What the logs that an auditor took show together.

ghost use Rattle.std.specs.Prelude.{◌≡◌, ℕ, List, Option, IfOk, length, map};
ghost use Rattle.definitions.specs.declared.logs.Entry.{Entry};
ghost use Rattle.definitions.specs.World.{Game, players_of};
ghost use Rattle.frame_index.specs.Plain.{AreClear};
ghost use Rattle.auditor.specs.Agreed as A;
ghost use Rattle.auditor.specs.Audits.{IsAuditOf, StandsFor};
ghost use Rattle.auditor.specs.Reading.{IsReadable};
ghost use Rattle.auditor.specs.Reports.{IsReportOf, agreed_by, found_in, world_by};

use crate::auditor::Auditor;
use crate::world::{WorldLine, world};
use definitions::{Finding, Move, PlayerId};
use frame_index::findings;
use move_rules::Walker;
use std::alloc::{AllocError, Global};
use std::marker::Model;

/// What logs show.
#[derive(Drop)]
pub struct Report {
    found: Vec<Finding>,
    // how many turns of each player are agreed
    agreed: Vec<u32>,
    // each player's line, or none
    lines: Vec<WorldLine>,
}

impl Model for Report {
    ghost use Rattle.auditor.specs.Reports.{Reported};

    ghost Value = { Reported };

    ghost view = { λ r. record { found = r.found.items; agreed = r.agreed.items; lines = r.lines.items } };
}

impl Report {
    /// The findings of the logs, by player, turn and kind, each with its least pair of spots.
    pub fn findings(&self) -> &[Finding]
        ensures { result.now ≡ found_in self.now }
    {
        &self.found
    }

    /// How many turns of the player are agreed, wherever they lie: some log resolves the turn, and all logs that do give one
    /// move. An owner's own frames count in its own log. 0 of a player whom the session doesn't have.
    pub fn agreed(&self, player: PlayerId) -> u32
        ensures { result ≡ agreed_by self.now player }
    {
        self.agreed.get(usize::from(player)).copied().unwrap_or(0)
    }

    /// Where the player stands behind the last turn and what it scored, by the play of the moves on which the logs agree. None
    /// where some turn of some player isn't agreed, and of a player whom the session doesn't have.
    pub fn world(&self, player: PlayerId) -> Option<WorldLine>
        ensures { result ≡ world_by self.now player }
    {
        self.lines.get(usize::from(player)).copied()
    }
}

/// The moves of each player's agreed turns, in order, how many they are, and whether it is known by them that no log shows a finding of the
/// player.
#[derive(Drop)]
struct Agreed {
    moves: Vec<Vec<Move>>,
    counts: Vec<u32>,
    clear: Vec<bool>,
}

impl Auditor {
    /// The moves of each player's agreed turns.
    fn agreed(&self, alloc: Global, walker: &mut Walker) -> Result<Agreed, AllocError>
        ensures many { IfOk result (λ a. length a.counts.items ≡ players_of self.now.session) }
        ensures counts { IfOk result (λ a. a.counts.items ≡ map (λ own. length own.items) a.moves.items) }
        ensures clear { IfOk result (λ a. AreClear self.now.session self.now.index a.clear.items) }
        ensures moves { IfOk result (λ a. (logs : List (List Entry)) → IsReadable self.now logs → map (λ own. own.items) a.moves.items ≡ A.all_agreed_moves self.now.session self.now.owners logs) }
    {
        self.session.facts();
        let players = usize::from(self.session.players());
        let mut moves = Vec::with_capacity(alloc, players)?;
        let mut counts = Vec::with_capacity(alloc, players)?;
        let mut clear = Vec::with_capacity(alloc, players)?;
        for player in 0..self.session.players() {
            let own = self.agreed_moves(alloc, walker, player)?;
            counts.push(own.moves.len() as u32)?;
            clear.push(own.is_clear)?;
            moves.push(own.moves)?;
        }
        Ok(Agreed {
            moves,
            counts,
            clear,
        })
    }

    /// What all logs show for which the auditor has room, the empty ones too.
    fn report_all(&self, alloc: Global) -> Result<Report, AllocError>
        ensures { IfOk result (λ r. (game : Game) (logs : List (List Entry)) → IsAuditOf game logs self.now → IsReportOf game self.now.owners logs r) }
    {
        let mut walker = Walker::new(alloc, self.session.grid())?;
        let agreed = self.agreed(alloc, &mut walker)?;
        let found = findings(
            alloc,
            &self.session,
            &mut walker,
            &self.index,
            &agreed.clear,
        )?;
        let lines = world(alloc, &self.session, &mut walker, &agreed.moves)?;
        Ok(Report {
            found,
            agreed: agreed.counts,
            lines,
        })
    }

    /// What the logs show that the auditor took so far. It takes memory from `alloc`, and an error comes where there is none.
    pub fn report(&self, alloc: Global) -> Result<Report, AllocError>
        ensures { IfOk result (λ r. (game : Game) (owners : List (Option ℕ)) (logs : List (List Entry)) → StandsFor game owners logs self.now → IsReportOf game owners logs r) }
    {
        self.report_all(alloc)
    }
}
