//! The audit of a match that was played.

ghost use Rattle.std.specs.Prelude.{◌<◌, ◌≤◌, ◌+◌, length, IfOk, IsTrue, OnOk};
ghost use Rattle.definitions.specs.Lists.{EachIs};
ghost use Rattle.definitions.specs.World.{players_of};
ghost use Rattle.auditor.specs.Audits.{count_in, is_of_its_sender};
ghost use Rattle.make_command.specs.Audits as S;

use auditor::{Auditor, MOST_LOGS, Report};
use definitions::limits::LONGEST_LOG;
use definitions::{Entry, PlayerId};
use schedule::Table;
use std::alloc::{AllocError, Global};

/// Takes the entries at the end of a log.
fn take_entries(auditor: &mut Auditor, log: u32, entries: &[Entry]) -> Result<(), AllocError>
    requires log { log < MOST_LOGS }
    requires few { count_in auditor.old log + length entries.now ≤ LONGEST_LOG }
    requires senders { EachIs (λ e. IsTrue (is_of_its_sender e)) entries.now }
    ensures { OnOk result (S.HasTakenOf auditor.old auditor.new log entries.now) }
{
    for entry in entries {
        auditor.take(log, entry)?;
    }
    Ok(())
}

/// Takes the log of the next player, who is its owner; a hostile player has none.
fn take_player(auditor: &mut Auditor, table: &Table, player: PlayerId) -> Result<(), AllocError>
    requires player { player < players_of table.now.game }
    requires taken { S.HasTaken table.now.game table.now.logs player auditor.old }
    ensures { OnOk result (S.HasTaken table.now.game table.now.logs (player + 1) auditor.new) }
{
    table.facts();
    table.session().facts();
    if !table.is_honest(player) {
        return Ok(());
    }
    auditor.owner(u32::from(player), player);
    take_entries(auditor, u32::from(player), table.log_of(player))
}

/// What the logs of all honest players show together.
pub(crate) fn audit(alloc: Global, table: &Table) -> Result<Report, AllocError>
    ensures { IfOk result (S.IsReportOn table.now.game table.now.logs) }
{
    table.facts();
    table.session().facts();
    let mut auditor = Auditor::new(alloc, table.session())?;
    for player in 0..table.session().players() {
        take_player(&mut auditor, table, player)?;
    }
    auditor.report(alloc)
}
