//! What the honest logs of a table show together.

ghost use Rattle.std.specs.Prelude.{◌≡◌, IsTrue};
ghost use Rattle.auditor.specs.Audits.{is_of_its_sender};

use crate::plain::grounds::Ground;
use crate::plain::known::{chosen_for, moves_of, own_of};
use crate::plain::plain_steps::log_in;
use crate::plain::worlds::{Trouble, hold};
use auditor::{Auditor, MOST_LOGS, Report};
use definitions::limits::LONGEST_LOG;
use definitions::{Entry, Finding, Kind, Move, PlayerId, Turn};
use schedule::Table;
use std::alloc::{AllocError, Global};

/// Whether a frame that was got is of the player from whom it came.
fn is_of_sender(entry: &Entry) -> bool
    ensures { result ≡ is_of_its_sender entry.now }
{
    match entry {
        Entry::Got(from, frame) => frame.player() == *from,
        _ => true,
    }
}

/// Hands a log to the auditor.
fn take_log(auditor: &mut Auditor, log: u32, entries: &[Entry]) -> Result<(), Trouble> {
    for entry in entries {
        if log >= MOST_LOGS || auditor.count(log) as usize >= LONGEST_LOG || !is_of_sender(entry) {
            return Err(Trouble::Broken("a log has a frame that isn't of its sender"));
        }
        auditor.take(log, entry)?;
    }
    Ok(())
}

/// The log is the player's.
fn own(auditor: &mut Auditor, log: u32, player: PlayerId) {
    if log < MOST_LOGS {
        auditor.owner(log, player);
    }
}

/// Hands a player's log to the auditor.
fn take_of(auditor: &mut Auditor, player: PlayerId, entries: &[Entry]) -> Result<(), Trouble> {
    let log = u32::from(player);
    own(auditor, log, player);
    take_log(auditor, log, entries)
}

/// What all honest logs show together.
pub fn audit(alloc: Global, table: &Table) -> Result<Report, Trouble> {
    let mut auditor = Auditor::new(alloc, table.session())?;
    for player in 0..table.session().players() {
        if let Some(entries) = log_in(table, player) {
            take_of(&mut auditor, player, entries)?;
        }
    }
    Ok(auditor.report(alloc)?)
}

/// Whether the finding is that the player told two things in the turn.
fn shows_two(finding: &Finding, player: PlayerId, turn: Turn) -> bool {
    finding.player == player
        && finding.turn == turn
        && matches!(
            finding.kind,
            Kind::TwoCommits | Kind::BadOpening | Kind::Collision
        )
}

/// Whether the report has such a finding.
fn convicts(report: &Report, player: PlayerId, turn: Turn) -> bool {
    for finding in report.findings() {
        if shows_two(finding, player, turn) {
            return true;
        }
    }
    false
}

/// The moves by which honest logs resolve a player's turn: the last of them, and whether two of
/// them differ.
#[derive(Clone, Copy)]
struct Told {
    last: Option<Move>,
    differ: bool,
}

/// The moves by which the owner's log resolves a player's turns, where the owner's own frames are
/// those that it made.
fn moves_in(
    alloc: Global,
    ground: &Ground,
    owner: PlayerId,
    log: &[Entry],
    player: PlayerId,
) -> Result<Vec<Move>, AllocError> {
    if owner != player {
        return moves_of(alloc, ground, log, player);
    }
    let mut moves = Vec::new(alloc);
    for turn in 0..own_of(log).reveals {
        if let Some((mv, _nonce)) = chosen_for(log, turn) {
            moves.push(mv)?;
        }
    }
    Ok(moves)
}

/// A log resolves the turn by this move.
fn tell(turn: &mut Told, mv: &Move) {
    if let Some(last) = turn.last {
        turn.differ = turn.differ || last != *mv;
    }
    turn.last = Some(*mv);
}

/// A log resolves the first of these turns by these moves.
fn tell_all(told: &mut [Told], moves: &[Move]) {
    for (turn, mv) in told.iter_mut().zip(moves.iter()) {
        tell(turn, mv);
    }
}

/// What the logs of the honest players tell of the player's turns, in their order.
fn told_of(
    alloc: Global,
    ground: &Ground,
    table: &Table,
    player: PlayerId,
) -> Result<Vec<Told>, AllocError> {
    let none = Told {
        last: None,
        differ: false,
    };
    let mut told = vec![in alloc; none; ground.turns as usize]?;
    for owner in 0..ground.players {
        if let Some(log) = log_in(table, owner) {
            let moves = moves_in(alloc, ground, owner, log, player)?;
            tell_all(told.as_mut_slice(), moves.as_slice());
        }
    }
    Ok(told)
}

/// Whether the logs agree on the player's turn. Where two of them have different moves of it, the
/// player is hostile and is found.
fn agree_on(
    table: &Table,
    report: &Report,
    player: PlayerId,
    turn: Turn,
    told: &Told,
) -> Result<bool, Trouble> {
    if !told.differ {
        return Ok(told.last.is_some());
    }
    hold(
        log_in(table, player).is_none(),
        "a log accepts a move that its honest player didn't choose",
    )?;
    let shown = convicts(report, player, turn);
    hold(shown, "two logs have two moves and don't convict")?;
    Ok(false)
}

/// On how many of these turns of the player the logs agree.
fn count_agreed(
    table: &Table,
    report: &Report,
    player: PlayerId,
    turns: &[Told],
) -> Result<u32, Trouble> {
    let mut agreed = 0u32;
    let mut turn = 0u32;
    for told in turns {
        if agree_on(table, report, player, turn, told)? {
            agreed = agreed.saturating_add(1);
        }
        turn = turn.saturating_add(1);
    }
    Ok(agreed)
}

/// On how many of the player's turns the logs agree.
fn agreed_of(
    alloc: Global,
    ground: &Ground,
    table: &Table,
    report: &Report,
    player: PlayerId,
) -> Result<u32, Trouble> {
    let told = told_of(alloc, ground, table, player)?;
    count_agreed(table, report, player, told.as_slice())
}

/// Whether the report names no honest player, and each hostile one that told two logs two moves,
/// and agrees on the turns on which the logs do.
pub fn names_the_right(
    alloc: Global,
    ground: &Ground,
    table: &Table,
    report: &Report,
) -> Result<(), Trouble> {
    for finding in report.findings() {
        hold(
            log_in(table, finding.player).is_none(),
            "the audit names an honest player",
        )?;
    }
    for player in 0..ground.players {
        let agreed = agreed_of(alloc, ground, table, report, player)?;
        hold(
            report.agreed(player) == agreed,
            "the audit agrees on other turns than the logs",
        )?;
    }
    Ok(())
}

/// Whether nothing is found, and all logs agree on every turn of every player.
pub fn agrees_on_all(ground: &Ground, report: &Report) -> Result<(), Trouble> {
    hold(
        report.findings().is_empty(),
        "the audit of an end has a finding",
    )?;
    for player in 0..ground.players {
        hold(
            report.agreed(player) == ground.turns && report.world(player).is_some(),
            "the audit of an end doesn't agree on all turns",
        )?;
    }
    Ok(())
}
