//! Players that are stopped at each place of a match, and go on from what their disks have.

use crate::nets::grounds::FAR;
use crate::nets::links::Net;
use crate::nets::setups::{STAY_0, STAY_9};
use crate::nets::sides::{Fails, Made, NARROW, Player};
use crate::stops::faults::{failing, has_given};
use definitions::PlayerId;
use grid_world::Session;
use match_sides::audits::{heard_truly, is_clean};
use match_sides::texts::{roster_of, script_of, session_of};
use peer_core::Peer;
use std::alloc::Global;
use std::test::Fail;

/// What a crash leaves after what was synced.
#[derive(Clone, Copy)]
enum Tail {
    Nothing,
    BadByte,
    HalfOfTheRest,
    TheRest,
}

const TAILS: [Tail; 4] = [
    Tail::Nothing,
    Tail::BadByte,
    Tail::HalfOfTheRest,
    Tail::TheRest,
];

/// What a crash leaves of the side's log.
fn image_of(alloc: Global, side: &Player, tail: Tail) -> Result<Vec<u8>, Fail> {
    let synced = side.image(alloc, b"")?.len();
    let kept = side.station().kept();
    if synced > kept.len() {
        return Err("more synced than kept".into());
    }
    let rest = kept.split_at(synced).1;
    let tail: &[u8] = match tail {
        Tail::Nothing => b"",
        Tail::BadByte => b"\xff",
        Tail::HalfOfTheRest => rest.split_at(rest.len() / 2).0,
        Tail::TheRest => rest,
    };
    side.image(alloc, tail)
}

/// A match in which player 0 is stopped in front of its call of that number, and player 1 hears
/// what was given.
fn stopped(
    alloc: Global,
    session: &Session,
    number: u32,
    most: Option<usize>,
) -> Result<Net, Fail> {
    let mut left = script_of(alloc, STAY_0, session)?;
    let mut right = script_of(alloc, STAY_9, session)?;
    let mut net = failing(alloc, session, Fails::From(number), most)?;
    let mut after = 0u32;
    for _ in 0..200 {
        if net.ended(0).is_some() {
            after = after.saturating_add(1);
        }
        if after > 3 {
            break;
        }
        net.round(0, &mut left);
        net.round(1, &mut right);
        net.carry_all(alloc)?;
    }
    Ok(net)
}

/// A player that goes on from this log. Its generator is another one than before the stop.
fn going_on(alloc: Global, session: &Session, me: PlayerId, log: &[u8]) -> Result<Player, Fail> {
    let roster = roster_of(alloc, me, 2)?;
    let seed = 500 + u64::from(me);
    let made = Made {
        session,
        me,
        roster: &roster,
        seed,
        fails: Fails::Nothing,
        most: None,
        room: NARROW,
    };
    Player::resumed(alloc, &made, log)
}

/// Plays a match of two that go on to its end.
fn play_on(alloc: Global, session: &Session, net: &mut Net) -> Result<(), Fail> {
    let mut left = script_of(alloc, STAY_0, session)?;
    let mut right = script_of(alloc, STAY_9, session)?;
    for _ in 0..60 {
        if net.is_over() {
            break;
        }
        net.round(0, &mut left);
        net.round(1, &mut right);
        net.carry_all(alloc)?;
    }
    Ok(())
}

/// Whether both got nothing of each other but what was made.
fn hear_truly(zero: &Peer, one: &Peer) -> bool {
    heard_truly(zero, one) && heard_truly(one, zero)
}

/// Whether the match of two is done, and clean.
fn is_well(alloc: Global, session: &Session, net: &Net) -> Result<bool, Fail> {
    let zero = net.side(0)?;
    let one = net.side(1)?;
    let logs = [zero.station().kept(), one.station().kept()];
    let is_clean = is_clean(alloc, session, &logs)?;
    Ok(is_clean && net.is_done() && hear_truly(zero.peer(), one.peer()))
}

/// Adds a player that goes on from this log.
fn add_going_on(
    alloc: Global,
    session: &Session,
    net: &mut Net,
    me: PlayerId,
    log: &[u8],
) -> Result<(), Fail> {
    let side = going_on(alloc, session, me, log)?;
    net.add(side)
}

/// Both players, that go on from what is left.
fn again_of(alloc: Global, session: &Session, net: &Net, tail: Tail) -> Result<Net, Fail> {
    let zero = net.side(0)?;
    let one = net.side(1)?;
    let image = image_of(alloc, zero, tail)?;
    let mut again = Net::new(alloc, 4096);
    add_going_on(alloc, session, &mut again, 0, &image)?;
    add_going_on(alloc, session, &mut again, 1, one.station().kept())?;
    Ok(again)
}

/// Whether player 0 has each own frame, when it goes on, of which a byte was given before.
fn has_frames_given(alloc: Global, net: &Net, again: &Net) -> Result<bool, Fail> {
    let before = net.side(0)?;
    let after = again.side(0)?;
    has_given(alloc, before, 0, after.peer())
}

/// Whether both players go on from what is left: player 0 has each own frame of which a byte was
/// given, and the match ends well.
fn goes_on(alloc: Global, session: &Session, net: &Net, tail: Tail) -> Result<bool, Fail> {
    let mut again = again_of(alloc, session, net, tail)?;
    if !has_frames_given(alloc, net, &again)? {
        return Ok(false);
    }
    play_on(alloc, session, &mut again)?;
    is_well(alloc, session, &again)
}

/// Whether both players go on from each tail that a stop in front of the call of that number can
/// leave.
fn all_go_on(
    alloc: Global,
    session: &Session,
    number: u32,
    most: Option<usize>,
) -> Result<bool, Fail> {
    let net = stopped(alloc, session, number, most)?;
    for tail in TAILS {
        if !goes_on(alloc, session, &net, tail)? {
            return Ok(false);
        }
    }
    Ok(true)
}

/// How many calls player 0 makes in a match that is not stopped, if that is done.
fn calls_of(alloc: Global, session: &Session, most: Option<usize>) -> Result<u32, Fail> {
    let net = stopped(alloc, session, 1_000_000, most)?;
    if !net.is_done() {
        return Err("a match that isn't done".into());
    }
    Ok(net.side(0)?.station().calls())
}

#[test]
fn a_player_goes_on_from_each_stop(rt: HostRuntime) -> Result<(), Fail> {
    let alloc = rt.alloc();
    let session = session_of(alloc, FAR)?;
    let calls = calls_of(alloc, &session, None)?;
    assert!(rt; calls == 77);
    for number in 1..=78 {
        let go_on = all_go_on(alloc, &session, number, None)?;
        assert!(rt; go_on, "call {number}");
    }
    Ok(())
}

/// Writes of at most 30 bytes, of which each second one is put off.
const PARTS: Option<usize> = Some(30);

#[test]
fn a_player_goes_on_from_each_early_stop_in_parts(rt: HostRuntime) -> Result<(), Fail> {
    let alloc = rt.alloc();
    let session = session_of(alloc, FAR)?;
    for number in 1..=96 {
        let go_on = all_go_on(alloc, &session, number, PARTS)?;
        assert!(rt; go_on, "call {number}");
    }
    Ok(())
}

#[test]
fn a_player_goes_on_from_each_late_stop_in_parts(rt: HostRuntime) -> Result<(), Fail> {
    let alloc = rt.alloc();
    let session = session_of(alloc, FAR)?;
    let calls = calls_of(alloc, &session, PARTS)?;
    assert!(rt; calls == 191);
    for number in 97..=192 {
        let go_on = all_go_on(alloc, &session, number, PARTS)?;
        assert!(rt; go_on, "call {number}");
    }
    Ok(())
}
