//! Whole matches over lines of several kinds, and one failing call at each place.

use crate::grounds::{FAR, NEAR, OF_THREE, OF_TWO, THREE, session_of};
use crate::lines::{Line, carry};
use crate::sides::Side;
use datagram_loop::Ended;
use definitions::PlayerId;
use grid_world::Session;
use log_files::{LogText, MOST_LOGS, Report, audit};
use pilots::BotPilot;
use std::alloc::Global;
use std::test::Fail;

/// A side of each player, which begins; of player 0 the call of this number fails, if one is named.
fn seat(
    alloc: Global,
    session: &Session,
    rosters: &[&[u8]],
    fails: Option<u32>,
) -> Result<Vec<Side>, Fail> {
    let mut sides = Vec::new(alloc);
    let mut me: PlayerId = 0;
    for roster in rosters {
        let fails = if me == 0 { fails } else { None };
        let side = Side::new(alloc, session, me, roster, fails)?;
        sides.push(side)?;
        me = me.saturating_add(1);
    }
    Ok(sides)
}

fn bots_of<'a>(alloc: Global, session: &'a Session) -> Result<Vec<BotPilot<'a>>, Fail> {
    let mut bots = Vec::new(alloc);
    for player in 0..session.players() {
        bots.push(BotPilot::new(u64::from(player), session))?;
    }
    Ok(bots)
}

/// Each side plays with one poll, and what it sent is carried.
fn round(
    alloc: Global,
    sides: &mut [Side],
    bots: &mut Vec<BotPilot<'_>>,
    line: &Line,
) -> Result<(), Fail> {
    for player in 0..sides.len() {
        if let Some(side) = sides.get_mut(player) {
            if let Some(bot) = bots.get_mut(player) {
                side.play(bot, 1);
            }
        }
        carry(alloc, sides, player, line)?;
    }
    Ok(())
}

/// Whether each side is done.
fn are_done(sides: &[Side]) -> bool {
    sides.iter().all(|side| side.ended() == Some(Ended::Done))
}

/// Whether each side is done, or player 0 ended by a fault of its post.
fn is_over(sides: &[Side]) -> bool {
    are_done(sides) || fault_of(sides).is_some()
}

/// The fault by which player 0 ended, if it did.
fn fault_of(sides: &[Side]) -> Option<Ended> {
    match sides.first() {
        None => None,
        Some(side) => match side.ended() {
            Some(Ended::KeepFault) => Some(Ended::KeepFault),
            Some(Ended::PollFault) => Some(Ended::PollFault),
            _ => None,
        },
    }
}

/// Plays to the end, at most 200 rounds.
fn play(alloc: Global, session: &Session, sides: &mut [Side], line: &Line) -> Result<(), Fail> {
    let mut bots = bots_of(alloc, session)?;
    for _ in 0..200 {
        if is_over(sides) {
            break;
        }
        round(alloc, sides, &mut bots, line)?;
    }
    Ok(())
}

/// The logs of the sides, that of player 0 first.
fn logs_of(alloc: Global, sides: &[Side]) -> Result<Vec<LogText>, Fail> {
    let mut logs = Vec::new(alloc);
    for side in sides {
        let mut bytes = Vec::new(alloc);
        bytes.extend_from_slice(side.post().kept())?;
        logs.push(LogText::new(bytes))?;
    }
    Ok(logs)
}

/// Whether the logs accuse nobody, agree on all turns, and tell where everybody stands.
fn is_clean(session: &Session, report: &Report) -> bool {
    for player in 0..session.players() {
        if report.world(player).is_none() || report.agreed(player) != session.turns() {
            return false;
        }
    }
    report.findings().is_empty()
}

/// Whether each side is done, and their logs are clean together.
fn ended_well(alloc: Global, session: &Session, sides: &[Side]) -> Result<bool, Fail> {
    let logs = logs_of(alloc, sides)?;
    if logs.len() > MOST_LOGS as usize {
        return Err("many logs".into());
    }
    let Ok(report) = audit(alloc, session, &logs) else {
        return Err("no report".into());
    };
    Ok(are_done(sides) && is_clean(session, &report))
}

/// Plays a match in which this call of player 0 fails, and says the fault by which it ended; None
/// where it ended well.
fn fault_in(
    alloc: Global,
    text: &[u8],
    rosters: &[&[u8]],
    line: &Line,
    fails: Option<u32>,
) -> Result<Option<Ended>, Fail> {
    let session = session_of(alloc, text)?;
    let mut sides = seat(alloc, &session, rosters, fails)?;
    play(alloc, &session, sides.as_mut_slice(), line)?;
    match fault_of(sides.as_slice()) {
        Some(fault) => Ok(Some(fault)),
        None => {
            if ended_well(alloc, &session, sides.as_slice())? {
                Ok(None)
            } else {
                Err("an end that isn't good".into())
            }
        }
    }
}

/// A line that loses and repeats nothing.
const GOOD: Line = Line { times: 1, lost: 0 };

/// Lines that reorder, repeat and lose datagrams: every third one, and every fifth. (Where every
/// second is lost, of three players one is never heard, since a batch has two.)
const LINES: [Line; 4] = [
    GOOD,
    Line { times: 2, lost: 0 },
    Line { times: 1, lost: 3 },
    Line { times: 3, lost: 5 },
];

#[test]
fn matches_end_over_bad_lines(rt: HostRuntime) -> Result<(), Fail> {
    let alloc = rt.alloc();
    for line in LINES {
        let near = fault_in(alloc, NEAR, &OF_TWO, &line, None)?;
        let far = fault_in(alloc, FAR, &OF_TWO, &line, None)?;
        let three = fault_in(alloc, THREE, &OF_THREE, &line, None)?;
        assert!(rt;
            near.is_none() && far.is_none() && three.is_none(),
            "{}",
            line.lost
        );
    }
    Ok(())
}

/// How many calls player 0 makes in a match of two over a good line.
fn calls_of(alloc: Global) -> Result<u32, Fail> {
    let session = session_of(alloc, NEAR)?;
    let mut sides = seat(alloc, &session, &OF_TWO, None)?;
    play(alloc, &session, sides.as_mut_slice(), &GOOD)?;
    match sides.first() {
        None => Err("no side".into()),
        Some(side) => Ok(side.post().items()),
    }
}

/// How many of the calls end the match as a fault of the log, and how many as one of polls.
#[derive(Clone, Copy, PartialEq, Eq)]
struct Faults {
    keeps: u32,
    polls: u32,
}

/// The same, with one more.
fn with_fault(faults: Faults, fault: Option<Ended>) -> Faults {
    match fault {
        Some(Ended::KeepFault) => Faults {
            keeps: faults.keeps.saturating_add(1),
            polls: faults.polls,
        },
        Some(_) => Faults {
            keeps: faults.keeps,
            polls: faults.polls.saturating_add(1),
        },
        None => faults,
    }
}

/// Lets each of so many calls fail in a match of its own.
fn faults_of(alloc: Global, calls: u32) -> Result<Faults, Fail> {
    let mut faults = Faults { keeps: 0, polls: 0 };
    for call in 0..calls {
        let number = call.saturating_add(1);
        let fault = fault_in(alloc, NEAR, &OF_TWO, &GOOD, Some(number))?;
        faults = with_fault(faults, fault);
    }
    Ok(faults)
}

#[test]
fn one_call_fails_at_each_place(rt: HostRuntime) -> Result<(), Fail> {
    let alloc = rt.alloc();
    let calls = calls_of(alloc)?;
    let faults = faults_of(alloc, calls)?;
    // the log, its 40 entries and a sync at least; the address and a poll; all others end nothing
    assert!(rt;
        faults.keeps >= 42 && faults.polls >= 2,
        "{} {}",
        faults.keeps,
        faults.polls
    );
    assert!(rt;
        calls > faults.keeps.saturating_add(faults.polls),
        "{calls}"
    );
    Ok(())
}
