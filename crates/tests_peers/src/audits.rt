//! Two logs in memory that hold different frames of one turn, as they are and torn, and what the
//! findings show without them.

ghost use Rattle.std.specs.Prelude.{◌≤◌, length};
ghost use Rattle.log_files.specs.Audited as A;

use crate::frames::{commit, front, goes, put_turn, reveal, session_of};
use definitions::{Kind, Spot, TurnFrame};
use evidence::judge;
use grid_world::Session;
use log_files::{
    AuditFault, Exhibit, Finding, LogText, LogWhy, MOST_LOGS, PlayerId, Report, audit, exhibit,
};
use move_rules::Walker;
use session_log::LogWriter;
use std::alloc::{AllocError, Global};
use std::test::Fail;

const CORRIDOR: &[u8] =
    b"playout 1\ngrid 12 1\nrules 1 1 0\ncharge 1 2 1\nturns 8\nplayers 3\nplayer 0 0 0\n\
    player 1 9 0\nplayer 2 11 0\nend\n";

/// The player of whom the logs have frames.
const PLAYER: PlayerId = 2;

/// The first bytes of the owner's log, who got the first turn of the player, in which it goes to
/// the column.
fn log_of(
    alloc: Global,
    session: &Session,
    owner: PlayerId,
    x: u16,
    count: usize,
) -> Result<LogText, AllocError> {
    let mut writer = LogWriter::new(session, owner);
    let mut log = Vec::new(alloc);
    let own = goes(PLAYER, 0, x, 7);
    put_turn(&mut log, &mut writer, session, &own)?;
    let bytes = Vec::from_slice(alloc, front(log.as_slice(), count))?;
    Ok(LogText::new(bytes))
}

/// The logs of the players 0 and 1, of which the second has only its first bytes.
fn logs_of(alloc: Global, session: &Session, count: usize) -> Result<Vec<LogText>, AllocError> {
    let first = log_of(alloc, session, 0, 11, 1_000)?;
    let second = log_of(alloc, session, 1, 10, count)?;
    let mut logs = Vec::new(alloc);
    logs.push(first)?;
    logs.push(second)?;
    Ok(logs)
}

/// What two faces of the player in its first turn show.
const TWO: Finding = Finding {
    player: PLAYER,
    turn: 0,
    kind: Kind::TwoCommits,
    first: Spot { log: 0, entry: 0 },
    second: Spot { log: 1, entry: 0 },
};

/// The exhibit of the finding of this number, by the report on these logs.
fn exhibit_at(
    alloc: Global,
    session: &Session,
    logs: &[LogText],
    report: &Report,
    at: usize,
) -> Result<Exhibit, Fail>
    requires few { length logs.now ≤ MOST_LOGS }
    requires report { A.Audits session.now logs.now report.now }
{
    match report.findings().get(at) {
        None => Err("no such finding".into()),
        Some(finding) => Ok(exhibit(alloc, session, logs, finding)?),
    }
}

/// Whether it is one of the first turn, of this kind and by these frames, and is judged to show
/// it.
fn is_shown(
    alloc: Global,
    session: &Session,
    shown: &Exhibit,
    kind: Kind,
    frames: &[TurnFrame],
) -> Result<bool, Fail> {
    if shown.player != PLAYER || shown.turn != 0 || shown.kind != kind {
        return Ok(false);
    }
    let mut walker = Walker::new(alloc, session.grid())?;
    Ok(shown.frames.as_slice() == frames && judge(session, &mut walker, shown))
}

#[test]
fn two_faces_are_found_and_shown_without_the_logs(rt: HostRuntime) -> Result<(), Fail> {
    let alloc = rt.alloc();
    let session = session_of(alloc, CORRIDOR)?;
    let logs = logs_of(alloc, &session, 1_000)?;
    if logs.len() > MOST_LOGS as usize {
        return Err("many".into());
    }
    let Ok(report) = audit(alloc, &session, &logs) else {
        return Err("no report".into());
    };
    assert!(rt; report.findings().first() == Some(&TWO));
    assert!(rt; report.findings().len() == 2);
    assert!(rt; report.agreed(PLAYER) == 0);
    assert!(rt; report.world(PLAYER).is_none());
    let far = commit(&session, &goes(PLAYER, 0, 11, 7));
    let near = commit(&session, &goes(PLAYER, 0, 10, 7));
    let opened = reveal(&session, &goes(PLAYER, 0, 10, 7));
    let two = exhibit_at(alloc, &session, &logs, &report, 0)?;
    let is_two = is_shown(alloc, &session, &two, Kind::TwoCommits, &[far, near])?;
    assert!(rt; is_two);
    let bad = exhibit_at(alloc, &session, &logs, &report, 1)?;
    let is_bad = is_shown(alloc, &session, &bad, Kind::BadOpening, &[far, opened])?;
    assert!(rt; is_bad);
    Ok(())
}

#[test]
fn the_first_bad_log_is_named(rt: HostRuntime) -> Result<(), Fail> {
    let alloc = rt.alloc();
    let session = session_of(alloc, CORRIDOR)?;
    let logs = logs_of(alloc, &session, 100)?;
    if logs.len() > MOST_LOGS as usize {
        return Err("many".into());
    }
    let torn = AuditFault::BadLog {
        log: 1,
        at: 77,
        why: LogWhy::Torn,
    };
    let fault = audit(alloc, &session, &logs).err();
    assert!(rt; fault == Some(torn));
    Ok(())
}
