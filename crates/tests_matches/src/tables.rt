//! The three players of a match at their machines, and the steps that they take together.

use crate::cables::Network;
use crate::grounds::{MOVES, others};
use crate::machines::log_of;
use crate::seats::{OnMachine, Seated, seat};
use grid_world::Session;
use match_sides::audits::{is_clean, report_of};
use match_sides::texts::roster_at;
use memory_host::Machine;
use ready_loop::Ended;
use socket_station::Station;
use std::alloc::Global;
use std::cell::RefCell;
use std::test::Fail;

/// The three players of the match, each on the machine of its number.
pub(crate) fn three<'a>(
    alloc: Global,
    session: &Session,
    machines: &'a [RefCell<Machine>; 4],
) -> Result<Vec<OnMachine<'a>>, Fail> {
    let mut seats = Vec::new(alloc);
    let mut me = 0u8;
    for (machine, moves) in machines.iter().zip(MOVES) {
        let roster = roster_at(alloc, me, me, &others(me))?;
        seats.push(seat(alloc, machine, session, me, &roster, moves)?)?;
        me = me.saturating_add(1);
    }
    Ok(seats)
}

/// Each player plays a round, and the network carries what was given.
pub(crate) fn step<S: Station + Drop>(
    alloc: Global,
    seats: &mut Vec<Seated<S>>,
    network: &mut Network<'_>,
) -> Result<(), Fail> {
    for seated in seats.iter_mut() {
        seated.round();
    }
    network.carry_all(alloc)
}

/// Plays to the end, in at most so many steps.
pub(crate) fn play<S: Station + Drop>(
    alloc: Global,
    seats: &mut Vec<Seated<S>>,
    network: &mut Network<'_>,
    steps: u32,
) -> Result<(), Fail> {
    for _ in 0..steps {
        if seats.iter().all(|seated| seated.ended().is_some()) {
            break;
        }
        step(alloc, seats, network)?;
    }
    Ok(())
}

/// Whether all of these are done.
pub(crate) fn are_done<S: Station + Drop>(seats: &[Seated<S>]) -> bool {
    seats
        .iter()
        .all(|seated| seated.ended() == Some(Ended::Done))
}

/// How the run at this place ended, if it did.
pub(crate) fn ended_at<S: Station + Drop>(seats: &[Seated<S>], place: usize) -> Option<Ended> {
    match seats.get(place) {
        None => None,
        Some(seated) => seated.ended(),
    }
}

/// Whether the three logs show all of the match, with nothing in it that breaks a rule.
pub(crate) fn are_whole(
    alloc: Global,
    session: &Session,
    machines: &[RefCell<Machine>; 4],
) -> Result<bool, Fail> {
    let machines = &machines[..];
    let zero = log_of(&machines[0])?;
    let one = log_of(&machines[1])?;
    let two = log_of(&machines[2])?;
    let logs = [zero.as_slice(), one.as_slice(), two.as_slice()];
    if !is_clean(alloc, session, &logs)? {
        return Ok(false);
    }
    let report = report_of(alloc, session, &logs)?;
    Ok(match report.world(1) {
        None => false,
        Some(line) => line.score.given == 1 && line.score.taken == 2,
    })
}
