//! Whole matches, with every byte carried from station to station.

use crate::nets::grounds::{FAR, FOUR, THREE};
use crate::nets::links::Net;
use crate::nets::setups::{STAY_0, STAY_9, net_of};
use crate::nets::sides::{NARROW, Player, WIDE};
use definitions::PlayerId;
use grid_world::Session;
use match_sides::audits::{heard_truly, is_clean};
use match_sides::texts::{script_of, session_of};
use peer_core::Peer;
use pilots::BotPilot;
use std::alloc::Global;
use std::test::Fail;

/// Plays the match of two to its end.
fn play_two(alloc: Global, net: &mut Net, session: &Session) -> Result<(), Fail> {
    let mut left = script_of(alloc, STAY_0, session)?;
    let mut right = script_of(alloc, STAY_9, session)?;
    for _ in 0..200 {
        if net.is_over() {
            break;
        }
        net.round(0, &mut left);
        net.round(1, &mut right);
        net.carry_all(alloc)?;
    }
    Ok(())
}

/// Whether a side has all that the other one made: how much was given, what was read, and the
/// entries.
fn has_all(side: &Player, other: PlayerId, speaker: &Peer) -> bool {
    let spent = side.it().spent(other);
    // a greeting of 56 bytes, and 40 and 45 bytes of each turn
    side.it().given(other) == 16
        && spent.read == 736
        && spent.wants == 0
        && side.peer().entries().len() == 40
        && heard_truly(side.peer(), speaker)
}

/// Whether both sides have all of each other.
fn is_shared(net: &Net) -> Result<bool, Fail> {
    let zero = net.side(0)?;
    let one = net.side(1)?;
    Ok(has_all(zero, 1, one.peer()) && has_all(one, 0, zero.peer()))
}

/// How a match of bots is carried: what seems ready, which link is lost after which round, and
/// how many rounds there are at most.
#[derive(Clone, Copy)]
struct Course {
    size: usize,
    seeming: bool,
    cut: Option<u32>,
    rounds: u32,
}

fn bots_of<'a>(alloc: Global, session: &'a Session) -> Result<Vec<BotPilot<'a>>, Fail> {
    let mut bots = Vec::new(alloc);
    for player in 0..session.players() {
        bots.push(BotPilot::new(u64::from(player), session))?;
    }
    Ok(bots)
}

/// One round of each side, and then all is carried.
fn round_all(
    alloc: Global,
    net: &mut Net,
    bots: &mut Vec<BotPilot<'_>>,
    course: &Course,
) -> Result<(), Fail> {
    for player in 0..16u8 {
        if let Some(bot) = bots.get_mut(usize::from(player)) {
            net.round(player, bot);
            net.carry_all(alloc)?;
        }
    }
    if course.seeming {
        net.seem_ready();
    }
    Ok(())
}

/// Plays a match of bots to its end.
fn play_bots(alloc: Global, net: &mut Net, session: &Session, course: &Course) -> Result<(), Fail> {
    let mut bots = bots_of(alloc, session)?;
    for round in 0..course.rounds {
        if net.is_over() {
            break;
        }
        round_all(alloc, net, &mut bots, course)?;
        if course.cut == Some(round) {
            net.cut(0);
        }
    }
    Ok(())
}

/// The logs that the sides kept, that of player 0 first.
fn logs_are_clean(alloc: Global, net: &Net, session: &Session) -> Result<bool, Fail> {
    let mut logs = Vec::new(alloc);
    for side in net.sides.as_slice() {
        logs.push(side.station().kept())?;
    }
    is_clean(alloc, session, logs.as_slice())
}

/// Whether a match of two that is carried in pieces of this size ends with all that it is to have.
fn two_end_well(alloc: Global, session: &Session, size: usize) -> Result<bool, Fail> {
    let mut net = net_of(alloc, session, size, NARROW)?;
    play_two(alloc, &mut net, session)?;
    let is_shared = is_shared(&net)?;
    let is_clean = logs_are_clean(alloc, &net, session)?;
    Ok(net.is_done() && is_shared && is_clean)
}

#[test]
fn two_play_a_match(rt: HostRuntime) -> Result<(), Fail> {
    let alloc = rt.alloc();
    let session = session_of(alloc, FAR)?;
    for size in [4096, 1] {
        let end_well = two_end_well(alloc, &session, size)?;
        assert!(rt; end_well, "{size}");
    }
    Ok(())
}

/// Whether the match of this course ends with whole and clean logs, where player 0 dialled player
/// 1 once more if their link was lost.
fn bots_end_well(alloc: Global, text: &[u8], course: &Course) -> Result<bool, Fail> {
    let session = session_of(alloc, text)?;
    let mut net = net_of(alloc, &session, course.size, WIDE)?;
    play_bots(alloc, &mut net, &session, course)?;
    let are_clean = logs_are_clean(alloc, &net, &session)?;
    let zero = net.side(0)?;
    let dials = if course.cut.is_some() { 2 } else { 1 };
    Ok(net.is_done() && are_clean && zero.station().dials(1) == dials)
}

/// Matches carried whole, in single bytes, and with a link that is lost while sockets only seem
/// ready.
const COURSES: [(&[u8], Course); 4] = [
    (
        THREE,
        Course {
            size: 4096,
            seeming: false,
            cut: None,
            rounds: 1000,
        },
    ),
    (
        THREE,
        Course {
            size: 1,
            seeming: false,
            cut: None,
            rounds: 1000,
        },
    ),
    (
        THREE,
        Course {
            size: 7,
            seeming: true,
            cut: Some(9),
            rounds: 1000,
        },
    ),
    (
        FOUR,
        Course {
            size: 1,
            seeming: true,
            cut: Some(20),
            rounds: 1000,
        },
    ),
];

#[test]
fn three_and_four_play_in_single_bytes(rt: HostRuntime) -> Result<(), Fail> {
    let alloc = rt.alloc();
    let mut row = 0u32;
    for (text, course) in COURSES {
        let end_well = bots_end_well(alloc, text, &course)?;
        assert!(rt; end_well, "{row}");
        row = row.saturating_add(1);
    }
    Ok(())
}
