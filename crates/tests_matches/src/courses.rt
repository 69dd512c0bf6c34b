//! Matches as they should go: whole, in small pieces, and over connections that break.

use crate::cables::Network;
use crate::grounds::SESSION;
use crate::machines::{machines_of, millis, narrow_log, open_and_ended};
use crate::tables::{are_done, are_whole, play, step, three};
use match_sides::texts::session_of;
use std::test::Fail;

#[test]
fn three_play_a_match(rt: HostRuntime) -> Result<(), Fail> {
    let alloc = rt.alloc();
    let session = session_of(alloc, SESSION)?;
    let machines = machines_of(alloc);
    let mut network = Network::new(alloc, &machines);
    let mut seats = three(alloc, &session, &machines)?;
    play(alloc, &mut seats, &mut network, 300)?;
    assert!(rt; are_done(&seats));
    let are_whole = are_whole(alloc, &session, &machines)?;
    assert!(rt; are_whole);
    let first = &machines[..][0];
    assert!(rt; open_and_ended(first) == (2, 0));
    let before = millis(first);
    for seated in seats {
        seated.finish();
    }
    // nobody carries the others' ends any more, so it waits for them as long as it may
    assert!(rt; open_and_ended(first) == (2, 2));
    assert!(rt; millis(first) == before.saturating_add(1000));
    Ok(())
}

#[test]
fn three_play_in_small_pieces(rt: HostRuntime) -> Result<(), Fail> {
    let alloc = rt.alloc();
    let session = session_of(alloc, SESSION)?;
    let machines = machines_of(alloc);
    for machine in &machines {
        narrow_log(machine, 7, usize::MAX);
    }
    let mut network = Network::new(alloc, &machines);
    let mut seats = three(alloc, &session, &machines)?;
    for _ in 0..600 {
        network.narrow_all(5);
        step(alloc, &mut seats, &mut network)?;
    }
    assert!(rt; are_done(&seats));
    let are_whole = are_whole(alloc, &session, &machines)?;
    assert!(rt; are_whole);
    Ok(())
}

#[test]
fn three_play_on_where_all_that_is_connected_breaks(rt: HostRuntime) -> Result<(), Fail> {
    let alloc = rt.alloc();
    let session = session_of(alloc, SESSION)?;
    for first in [1u32, 2, 3, 5, 8, 13] {
        let machines = machines_of(alloc);
        let mut network = Network::new(alloc, &machines);
        let mut seats = three(alloc, &session, &machines)?;
        play(alloc, &mut seats, &mut network, first)?;
        network.break_all();
        play(alloc, &mut seats, &mut network, 1)?;
        network.break_all();
        play(alloc, &mut seats, &mut network, 300)?;
        assert!(rt; are_done(&seats), "{first}");
        let are_whole = are_whole(alloc, &session, &machines)?;
        assert!(rt; are_whole, "{first}");
    }
    Ok(())
}
