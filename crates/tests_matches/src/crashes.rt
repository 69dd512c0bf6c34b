//! Matches in which a player goes on from what a crash left of its log.

use crate::cables::Network;
use crate::grounds::{MOVES, SESSION, others};
use crate::machines::{image_of, log_of, machines_of};
use crate::seats::seat_again;
use crate::tables::{are_done, play, three};
use grid_world::Session;
use match_sides::audits::is_clean;
use match_sides::texts::{roster_at, session_of};
use memory_host::Machine;
use std::alloc::Global;
use std::cell::RefCell;
use std::test::Fail;

/// Whether all are done where player 0 goes on from a crash after so many steps, on the fourth
/// machine.
fn crashed(
    alloc: Global,
    session: &Session,
    machines: &[RefCell<Machine>; 4],
    first: u32,
) -> Result<bool, Fail> {
    let mut network = Network::new(alloc, machines);
    let mut seats = three(alloc, session, machines)?;
    play(alloc, &mut seats, &mut network, first)?;
    let machines = &machines[..];
    let image = image_of(alloc, &machines[0])?;
    network.replace(0, 3);
    let roster = roster_at(alloc, 0, 0, &others(0))?;
    let again = seat_again(alloc, &machines[3], session, 0, &roster, MOVES[0], &image)?;
    if let Some(seated) = seats.get_mut(0) {
        *seated = again;
    }
    play(alloc, &mut seats, &mut network, 300)?;
    Ok(are_done(&seats))
}

/// Whether the logs of the three who ended the match are whole and clean.
fn are_clean(
    alloc: Global,
    session: &Session,
    machines: &[RefCell<Machine>; 4],
) -> Result<bool, Fail> {
    let machines = &machines[..];
    let again = log_of(&machines[3])?;
    let one = log_of(&machines[1])?;
    let two = log_of(&machines[2])?;
    is_clean(alloc, session, &[&again, &one, &two])
}

#[test]
fn a_player_goes_on_from_what_a_crash_left(rt: HostRuntime) -> Result<(), Fail> {
    let alloc = rt.alloc();
    let session = session_of(alloc, SESSION)?;
    for first in [1u32, 2, 4, 6, 9, 13] {
        let machines = machines_of(alloc);
        let is_done = crashed(alloc, &session, &machines, first)?;
        assert!(rt; is_done, "{first}");
        let are_clean = are_clean(alloc, &session, &machines)?;
        assert!(rt; are_clean, "{first}");
    }
    Ok(())
}
