//! Sixteen logs of a match in which sixteen players stay where they are for 64 turns: 1,920
//! entries each.

use crate::frames::{goes, put_turn, session_of};
use definitions::PlayerId;
use grid_world::Session;
use log_files::{LogText, MOST_LOGS, Report, audit};
use session_log::LogWriter;
use std::alloc::{AllocError, Global};
use std::test::Fail;

const ROW: &[u8] =
    b"playout 1\ngrid 16 1\nrules 1 0 0\ncharge 1 2 1\nturns 64\nplayers 16\nplayer 0 0 0\n\
    player 1 1 0\nplayer 2 2 0\nplayer 3 3 0\nplayer 4 4 0\nplayer 5 5 0\nplayer 6 6 0\n\
    player 7 7 0\nplayer 8 8 0\nplayer 9 9 0\nplayer 10 10 0\nplayer 11 11 0\nplayer 12 12 0\n\
    player 13 13 0\nplayer 14 14 0\nplayer 15 15 0\nend\n";

const PLAYERS: PlayerId = 16;

/// The log got all turns of the player.
fn put_player(
    log: &mut Vec<u8>,
    writer: &mut LogWriter,
    session: &Session,
    player: PlayerId,
) -> Result<(), AllocError> {
    for turn in 0..session.turns() {
        let stays = goes(player, turn, u16::from(player), 0);
        put_turn(log, writer, session, &stays)?;
    }
    Ok(())
}

/// The owner's log, which got all turns of all other players.
fn log_of(alloc: Global, session: &Session, owner: PlayerId) -> Result<LogText, AllocError> {
    let mut writer = LogWriter::new(session, owner);
    let mut log = Vec::new(alloc);
    for player in 0..PLAYERS {
        if player != owner {
            put_player(&mut log, &mut writer, session, player)?;
        }
    }
    Ok(LogText::new(log))
}

/// A log of each player, so many times.
fn logs_of(alloc: Global, session: &Session, times: u8) -> Result<Vec<LogText>, AllocError> {
    let mut logs = Vec::new(alloc);
    for _ in 0..times {
        for owner in 0..PLAYERS {
            let log = log_of(alloc, session, owner)?;
            logs.push(log)?;
        }
    }
    Ok(logs)
}

/// Whether all turns of the player are agreed, and it stands at its start with a full charge, and
/// wasn't hit.
fn stood(report: &Report, player: PlayerId) -> bool {
    match report.world(player) {
        None => false,
        Some(line) => {
            let at = line.track.at;
            report.agreed(player) == 64
                && at.x == u16::from(player)
                && at.y == 0
                && line.track.charge == 2
                && line.score.given == 0
                && line.score.taken == 0
        }
    }
}

/// Whether the logs of the match, each so many times, have no finding and show all of it.
fn show_all(alloc: Global, session: &Session, times: u8) -> Result<bool, Fail> {
    let logs = logs_of(alloc, session, times)?;
    if logs.len() > MOST_LOGS as usize {
        return Err("many".into());
    }
    let Ok(report) = audit(alloc, session, &logs) else {
        return Err("no report".into());
    };
    for player in 0..PLAYERS {
        if !stood(&report, player) {
            return Ok(false);
        }
    }
    Ok(report.findings().is_empty())
}

#[test]
fn a_match_of_sixteen_is_audited_by_all_its_logs(rt: HostRuntime) -> Result<(), Fail> {
    let alloc = rt.alloc();
    let session = session_of(alloc, ROW)?;
    // four times all of them are as many logs as an audit takes
    for times in [1, 4] {
        let show_all = show_all(alloc, &session, times)?;
        assert!(rt; show_all, "{times}");
    }
    Ok(())
}
