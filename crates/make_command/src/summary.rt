//! What is told of the match of a number.

ghost use Rattle.std.specs.Prelude.{◌≡◌, IfOk};
ghost use Rattle.schedule.specs.Tables.{TableState};
ghost use Rattle.make_command.specs.Audits as A;
ghost use Rattle.make_command.specs.Summaries.{made_match, summary_of};

use crate::auditing::audit;
use crate::playing::Playing;
use crate::sessions::make_session;
use auditor::{Report, WorldLine};
use schedule::Table;
use std::alloc::{AllocError, Global};
use std::marker::Model;

/// The lines of players, in order: where each stands behind the last turn, and what it scored.
#[derive(Drop)]
pub struct PlayerLines {
    lines: Vec<WorldLine>,
}

impl Model for PlayerLines {
    ghost use Rattle.std.specs.Prelude.{List};
    ghost use Rattle.auditor.specs.declared.world.WorldLine.{WorldLine};

    ghost Value = { List WorldLine };

    ghost view = { λ p. p.lines.items };
}

impl PlayerLines {
    /// The lines.
    pub fn as_slice(&self) -> &[WorldLine]
        ensures { result.now ≡ self.now }
    {
        self.lines.as_slice()
    }
}

/// What came of a match.
#[derive(Drop)]
pub struct Summary {
    /// How many moves the bots chose.
    pub chosen: u32,
    /// How many frames were delivered that a player lacked.
    pub delivered: u32,
    /// How many were lost.
    pub lost: u32,
    /// How many were delivered that a player may have had.
    pub repeated: u32,
    /// How many findings the logs show together.
    pub findings: u32,
    /// Where each player stands at the end; none where the logs don't agree on all turns.
    pub players: PlayerLines,
}

/// The lines of the players by a report on the table's logs.
fn lines_of(alloc: Global, table: &Table, report: &Report) -> Result<PlayerLines, AllocError>
    requires { A.IsReportOn table.now.game table.now.logs report.now }
    ensures { IfOk result (λ p. p ≡ A.world_lines table.now.game table.now.logs) }
{
    let mut lines = Vec::new(alloc);
    for player in 0..table.session().players() {
        if let Some(line) = report.world(player) {
            lines.push(line)?;
        }
    }
    Ok(PlayerLines { lines })
}

/// The match of this number: bots play the session of the number, frames between them are lost and repeated, and the logs of all are audited
/// together. It is the same whenever it is made, and comes to its end: see [`crate::laws`]. An error comes where memory is refused.
pub fn make_match(alloc: Global, number: u64) -> Result<Summary, AllocError>
    ensures { IfOk result (λ s. s ≡ summary_of (made_match number)) }
{
    let session = make_session(alloc, number)?;
    let mut playing = Playing::new(alloc, &session, number)?;
    playing.play();
    let report = audit(alloc, &playing.table)?;
    let players = lines_of(alloc, &playing.table, &report)?;
    Ok(Summary {
        chosen: playing.counts.chosen,
        delivered: playing.counts.delivered,
        lost: playing.counts.lost,
        repeated: playing.counts.repeated,
        findings: report.findings().len() as u32,
        players,
    })
}
