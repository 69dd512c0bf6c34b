//! Matches in which what is given comes at once or later, in each order up to a depth.

use crate::nets::grounds::SHORT;
use crate::nets::links::Net;
use crate::nets::setups::net_of;
use crate::nets::sides::{NARROW, Player};
use definitions::PlayerId;
use grid_world::Session;
use match_sides::audits::heard_truly;
use match_sides::texts::{script_of, session_of};
use peer_core::Peer;
use pilots::ScriptPilot;
use std::alloc::Global;
use std::test::Fail;

/// In how many rounds each side's bytes are held back, or not.
const DEPTH: u32 = 5;

/// Carries what was given on each link, or only one way of it, or nothing.
fn carry_some(alloc: Global, net: &mut Net, there: bool, back: bool) -> Result<(), Fail> {
    net.connect_all()?;
    for place in 0..net.wires.len() {
        if there {
            net.carry_there(alloc, place)?;
        }
        if back {
            net.carry_back(alloc, place)?;
        }
    }
    Ok(())
}

/// Which ways are carried after this round, by the bits of the first ones.
fn carried_in(bits: u32, round: u32) -> (bool, bool) {
    if round >= DEPTH {
        return (true, true);
    }
    (
        bits >> (2 * round) & 1 == 1,
        bits >> (2 * round + 1) & 1 == 1,
    )
}

/// Plays the match whose bits say what is carried in the first rounds.
fn play_by(alloc: Global, net: &mut Net, session: &Session, bits: u32) -> Result<(), Fail> {
    let mut left = script_of(alloc, b"1 0\n1 0\n1 0 2 0\n", session)?;
    let mut right = script_of(alloc, b"3 0\n2 0 1 0\n2 0\n", session)?;
    for round in 0..40 {
        if net.is_over() {
            break;
        }
        net.round(0, &mut left);
        net.round(1, &mut right);
        let (there, back) = carried_in(bits, round);
        carry_some(alloc, net, there, back)?;
    }
    Ok(())
}

/// How many steps there are in each order of steps.
const STEPS: u32 = 5;

/// One step: a round of either side, or what was given is carried one way.
fn step(
    alloc: Global,
    net: &mut Net,
    left: &mut ScriptPilot,
    right: &mut ScriptPilot,
    what: u32,
) -> Result<(), Fail> {
    match what {
        0 => net.round(0, left),
        1 => net.round(1, right),
        2 => carry_some(alloc, net, true, false)?,
        _ => carry_some(alloc, net, false, true)?,
    }
    Ok(())
}

/// Plays the match whose first steps are these, two bits each, and then on with all steps in turn.
fn play_steps(alloc: Global, net: &mut Net, session: &Session, bits: u32) -> Result<(), Fail> {
    let mut left = script_of(alloc, b"1 0\n1 0\n1 0 2 0\n", session)?;
    let mut right = script_of(alloc, b"3 0\n2 0 1 0\n2 0\n", session)?;
    for at in 0..STEPS {
        let what = bits >> (2 * at) & 3;
        step(alloc, net, &mut left, &mut right, what)?;
    }
    for at in 0..160u32 {
        if net.is_over() {
            break;
        }
        step(alloc, net, &mut left, &mut right, at & 3)?;
    }
    Ok(())
}

/// Whether a side has all that the other one made, and nothing else: three choices, six own frames
/// and six of the other.
fn has_all(side: &Player, other: PlayerId, speaker: &Peer) -> bool {
    let spent = side.it().spent(other);
    // a greeting, and each turn with one strike
    spent.read == 56 + 3 * 85 + 4
        && spent.wants == 0
        && side.it().given(other) == 6
        && side.peer().entries().len() == 15
        && heard_truly(side.peer(), speaker)
}

/// Whether the match is done, and both players have all of it.
fn is_whole(net: &Net) -> Result<bool, Fail> {
    let zero = net.side(0)?;
    let one = net.side(1)?;
    Ok(net.is_done() && has_all(zero, 1, one.peer()) && has_all(one, 0, zero.peer()))
}

/// Whether the match whose bits say what is carried in the first rounds ends as each does.
fn bytes_end_alike(alloc: Global, session: &Session, bits: u32) -> Result<bool, Fail> {
    let mut net = net_of(alloc, session, 4096, NARROW)?;
    play_by(alloc, &mut net, session, bits)?;
    is_whole(&net)
}

/// Whether the match whose bits say the first steps ends as each does.
fn steps_end_alike(alloc: Global, session: &Session, bits: u32) -> Result<bool, Fail> {
    let mut net = net_of(alloc, session, 4096, NARROW)?;
    play_steps(alloc, &mut net, session, bits)?;
    is_whole(&net)
}

#[test]
fn each_order_of_bytes_ends_alike(rt: HostRuntime) -> Result<(), Fail> {
    let alloc = rt.alloc();
    let session = session_of(alloc, SHORT)?;
    for bits in 0..1u32 << (2 * DEPTH) {
        let end_alike = bytes_end_alike(alloc, &session, bits)?;
        assert!(rt; end_alike, "{bits}");
    }
    Ok(())
}

#[test]
fn each_order_of_steps_ends_alike(rt: HostRuntime) -> Result<(), Fail> {
    let alloc = rt.alloc();
    let session = session_of(alloc, SHORT)?;
    for bits in 0..1u32 << (2 * STEPS) {
        let end_alike = steps_end_alike(alloc, &session, bits)?;
        assert!(rt; end_alike, "{bits}");
    }
    Ok(())
}
