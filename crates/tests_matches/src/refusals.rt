//! Matches in which one call of a machine is refused, or its disk is full.

use crate::cables::Network;
use crate::grounds::SESSION;
use crate::machines::{log_of, machines_of, narrow_log, refuse};
use crate::tables::{are_done, ended_at, play, three};
use grid_world::Session;
use machine_host::HostFault;
use match_sides::texts::session_of;
use memory_host::Call;
use ready_loop::Ended;
use std::alloc::Global;
use std::test::Fail;

/// How the match ends for player 1 where one call of its machine is refused, and whether it ends
/// well for all.
fn refused(
    alloc: Global,
    session: &Session,
    call: Call,
    turn: u32,
) -> Result<(Option<Ended>, bool), Fail> {
    let machines = machines_of(alloc);
    refuse(&machines[..][1], call, turn, HostFault::Other)?;
    let mut network = Network::new(alloc, &machines);
    let mut seats = three(alloc, session, &machines)?;
    play(alloc, &mut seats, &mut network, 120)?;
    Ok((ended_at(&seats, 1), are_done(&seats)))
}

/// How a run ends of which this call is refused, by its kind and its number among those of its
/// kind.
fn due(call: Call, turn: u32) -> Ended {
    let is_first = turn == 1;
    match call {
        Call::Wait => Ended::PollFault,
        Call::Select | Call::Listen | Call::WatchListener if is_first => Ended::PollFault,
        Call::Append | Call::SyncFile => Ended::KeepFault,
        Call::Create | Call::OpenFolder | Call::SyncFolder if is_first => Ended::KeepFault,
        _ => Ended::Done,
    }
}

const CALLS: [Call; 15] = [
    Call::Clock,
    Call::Select,
    Call::Listen,
    Call::WatchListener,
    Call::Accept,
    Call::Connect,
    Call::Watch,
    Call::Wait,
    Call::Read,
    Call::Write,
    Call::Create,
    Call::OpenFolder,
    Call::Append,
    Call::SyncFile,
    Call::SyncFolder,
];

#[test]
fn one_call_that_is_refused_ends_a_run_only_where_it_must(rt: HostRuntime) -> Result<(), Fail> {
    let alloc = rt.alloc();
    let session = session_of(alloc, SESSION)?;
    for call in CALLS {
        for turn in [1u32, 2, 3] {
            let due = due(call, turn);
            let (ended, are_done) = refused(alloc, &session, call, turn)?;
            assert!(rt; ended == Some(due), "{call:?} {turn} {ended:?}");
            // the two others wait for who stopped, and are done where nobody did
            assert!(rt; are_done == (due == Ended::Done), "{call:?} {turn}");
        }
    }
    Ok(())
}

#[test]
fn a_full_disk_ends_a_run_and_leaves_a_log(rt: HostRuntime) -> Result<(), Fail> {
    let alloc = rt.alloc();
    let session = session_of(alloc, SESSION)?;
    for room in [0usize, 1, 50, 51, 300, 1000] {
        let machines = machines_of(alloc);
        let first = &machines[..][0];
        narrow_log(first, usize::MAX, room);
        let mut network = Network::new(alloc, &machines);
        let mut seats = three(alloc, &session, &machines)?;
        play(alloc, &mut seats, &mut network, 60)?;
        assert!(rt; ended_at(&seats, 0) == Some(Ended::KeepFault), "{room}");
        let log = log_of(first)?;
        assert!(rt; log.len() == room, "{room}");
    }
    Ok(())
}
