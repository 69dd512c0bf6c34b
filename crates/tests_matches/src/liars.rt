//! A match with a player that runs two programs, and tells each of the others another course.

use crate::cables::Network;
use crate::grounds::{DOWN, FAR, MOVES, STAY, UP, others};
use crate::machines::{log_of, machines_of};
use crate::seats::{OnMachine, seat};
use crate::tables::{ended_at, play};
use grid_world::Session;
use match_sides::audits::report_of;
use match_sides::texts::{roster_at, session_of};
use memory_host::Machine;
use ready_loop::Ended;
use std::alloc::Global;
use std::cell::RefCell;
use std::test::Fail;

/// A seat of the match with a liar, who has the third machine and the fourth.
fn seat_far<'a>(
    alloc: Global,
    session: &Session,
    machine: &'a RefCell<Machine>,
    number: u8,
) -> Result<OnMachine<'a>, Fail> {
    let (me, found, moves) = match number {
        0 => (0, others(0), MOVES[0]),
        1 => (1, [(0, 0), (2, 3)], STAY),
        2 => (2, others(2), UP),
        _ => (2, others(2), DOWN),
    };
    let roster = roster_at(alloc, number, me, &found)?;
    seat(alloc, machine, session, me, &roster, moves)
}

/// The two players and the two programs of the liar, each on its machine.
fn four<'a>(
    alloc: Global,
    session: &Session,
    machines: &'a [RefCell<Machine>; 4],
) -> Result<Vec<OnMachine<'a>>, Fail> {
    let mut seats = Vec::new(alloc);
    let mut number = 0u8;
    for machine in machines.iter() {
        seats.push(seat_far(alloc, session, machine, number)?)?;
        number = number.saturating_add(1);
    }
    Ok(seats)
}

#[test]
fn a_liar_is_found_by_two_logs(rt: HostRuntime) -> Result<(), Fail> {
    let alloc = rt.alloc();
    let session = session_of(alloc, FAR)?;
    let machines = machines_of(alloc);
    let mut network = Network::new(alloc, &machines);
    let mut seats = four(alloc, &session, &machines)?;
    play(alloc, &mut seats, &mut network, 120)?;
    assert!(rt; ended_at(&seats, 0) == Some(Ended::Done));
    assert!(rt; ended_at(&seats, 1) == Some(Ended::Done));
    let machines = &machines[..];
    let zero = log_of(&machines[0])?;
    let one = log_of(&machines[1])?;
    let alone = report_of(alloc, &session, &[&zero])?;
    assert!(rt; alone.findings().is_empty());
    let both = report_of(alloc, &session, &[&zero, &one])?;
    let found = match both.findings().first() {
        None => None,
        Some(finding) => Some((finding.player, finding.turn)),
    };
    assert!(rt; found == Some((2, 2)));
    assert!(rt; both.agreed(2) == 2);
    Ok(())
}
