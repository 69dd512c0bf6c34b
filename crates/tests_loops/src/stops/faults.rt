//! One failing call at each place of a match of two, and all calls from a place on.

use crate::nets::greets::{place_asked, put_made_from, reply};
use crate::nets::grounds::FAR;
use crate::nets::heard::{Call, Heard};
use crate::nets::links::Net;
use crate::nets::setups::{STAY_0, STAY_9, side_of};
use crate::nets::sides::{Fails, NARROW, Player};
use grid_world::Session;
use match_sides::audits::{is_clean, replayed};
use match_sides::texts::{script_of, session_of};
use peer_core::Peer;
use ready_loop::Ended;
use std::alloc::Global;
use std::test::Fail;

/// Two sides, of whose first one these calls fail.
pub(crate) fn failing(
    alloc: Global,
    session: &Session,
    fails: Fails,
    most: Option<usize>,
) -> Result<Net, Fail> {
    let mut net = Net::new(alloc, 4096);
    let zero = side_of(alloc, session, 0, fails, most, NARROW)?;
    net.add(zero)?;
    let one = side_of(alloc, session, 1, Fails::Nothing, None, NARROW)?;
    net.add(one)?;
    Ok(net)
}

/// Where player 1's run has ended, the harness answers in its place on a link of this place over
/// which nothing came back yet.
fn answer_for(alloc: Global, net: &mut Net, place: usize) -> Result<(), Fail> {
    let Some(wire) = net.wires.get(place).copied() else {
        return Ok(());
    };
    if net.ended(1).is_none() || wire.back > 0 {
        return Ok(());
    }
    let given = net.side(0)?.given(alloc, wire.near, 0)?;
    let Some(asked) = place_asked(&given) else {
        return Ok(());
    };
    let other = net.side(1)?.peer();
    let said = reply(alloc, other, 0, asked)?;
    net.say_back(alloc, place, &said)
}

/// The harness answers on each link where that is due.
fn answer_all(alloc: Global, net: &mut Net) -> Result<(), Fail> {
    for place in 0..net.wires.len() {
        answer_for(alloc, net, place)?;
    }
    Ok(())
}

/// Plays until both runs have ended, or player 0's has by a fault.
fn play_on(alloc: Global, net: &mut Net, session: &Session) -> Result<(), Fail> {
    let mut left = script_of(alloc, STAY_0, session)?;
    let mut right = script_of(alloc, STAY_9, session)?;
    for _ in 0..60 {
        if net.is_over() {
            break;
        }
        net.round(0, &mut left);
        net.round(1, &mut right);
        net.carry_all(alloc)?;
        answer_all(alloc, net)?;
    }
    Ok(())
}

/// A match of two of whose player 0 these calls fail, when it is over.
fn failed(alloc: Global, session: &Session, fails: Fails) -> Result<Net, Fail> {
    let mut net = failing(alloc, session, fails, None)?;
    play_on(alloc, &mut net, session)?;
    Ok(net)
}

/// How a run ends whose call of this kind fails.
fn named(call: Call) -> Ended {
    match call {
        Call::LogTo | Call::Keep | Call::Sync => Ended::KeepFault,
        Call::Listen | Call::Poll => Ended::PollFault,
        Call::Dial | Call::Read | Call::Write => Ended::Done,
    }
}

/// The history ends with the last call, which is the one that ended the run.
fn ends_there(heard: &Heard, number: u32) -> bool {
    heard.inner.calls() == number && heard.inner.items() == number.saturating_add(heard.shuts())
}

/// Whether the kept bytes are a log of the first so many entries of the peer, or of all.
fn keeps_front(alloc: Global, session: &Session, side: &Player) -> Result<bool, Fail> {
    let kept = replayed(alloc, session, 0, side.station().kept())?;
    Ok(side.peer().entries().starts_with(kept.entries()))
}

fn keeps_all(alloc: Global, session: &Session, side: &Player) -> Result<bool, Fail> {
    let kept = replayed(alloc, session, 0, side.station().kept())?;
    Ok(side.peer().entries() == kept.entries())
}

/// Whether all bytes given on the socket after the greeting are of frames that the peer made,
/// from the first on.
pub(crate) fn has_given(
    alloc: Global,
    side: &Player,
    socket: u32,
    peer: &Peer,
) -> Result<bool, Fail> {
    let given = side.given(alloc, socket, 0)?;
    let mut frames = Vec::new(alloc);
    put_made_from(peer, 0, &mut frames)?;
    let after = given.get(56..).unwrap_or(&[]);
    Ok(frames.as_slice().starts_with(after))
}

/// Whether no byte was given of a frame whose entry wasn't synced: all are of those of the log
/// that a crash leaves.
fn gave_synced(alloc: Global, session: &Session, side: &Player) -> Result<bool, Fail> {
    let image = side.image(alloc, b"")?;
    let synced = replayed(alloc, session, 0, &image)?;
    has_given(alloc, side, 0, &synced)
}

/// Whether a front of the log is kept, and no byte was given of what isn't synced.
fn keeps_in_order(alloc: Global, session: &Session, side: &Player) -> Result<bool, Fail> {
    let keeps_front = keeps_front(alloc, session, side)?;
    let gave_synced = gave_synced(alloc, session, side)?;
    Ok(keeps_front && gave_synced)
}

/// Whether nothing is kept, and nobody was dialled.
fn has_begun_nothing(side: &Player) -> bool {
    side.station().kept().is_empty() && side.station().dialled(1).is_none()
}

/// Whether the run of a side stands as it is to where a call of this kind failed and ended it.
fn stands_ended(alloc: Global, session: &Session, side: &Player, call: Call) -> Result<bool, Fail> {
    match call {
        Call::LogTo => Ok(has_begun_nothing(side)),
        Call::Keep | Call::Sync => keeps_in_order(alloc, session, side),
        _ => keeps_all(alloc, session, side),
    }
}

/// Whether the first socket is closed, and player 1 was dialled again, unless there was no further
/// poll.
fn has_gone_on(side: &Player, number: u32, call: Call) -> bool {
    let is_again = side.station().dials(1) == 2;
    let is_last = side.heard().count_after(number, Call::Poll) == 0;
    let is_closed = call == Call::Dial || !side.station().is_open(0);
    is_closed && (is_again || is_last)
}

/// Whether the run of player 0 stands as it is to where its call of that number failed, which ends
/// no run.
fn stands_on(
    alloc: Global,
    session: &Session,
    net: &Net,
    number: u32,
    call: Call,
) -> Result<bool, Fail> {
    let side = net.side(0)?;
    let other = net.side(1)?;
    let logs = [side.station().kept(), other.station().kept()];
    let is_clean = is_clean(alloc, session, &logs)?;
    Ok(is_clean && has_gone_on(side, number, call) && other.ended() == Some(Ended::Done))
}

/// Whether the run whose call of that number, of that kind, failed ended as it is to.
fn fails_well(
    alloc: Global,
    session: &Session,
    net: &Net,
    number: u32,
    call: Call,
) -> Result<bool, Fail> {
    let side = net.side(0)?;
    let wanted = named(call);
    if side.ended() != Some(wanted) || side.heard().call(number) != Some(call) {
        return Ok(false);
    }
    if wanted == Ended::Done {
        return stands_on(alloc, session, net, number, call);
    }
    let stands = stands_ended(alloc, session, side, call)?;
    Ok(stands && ends_there(side.heard(), number))
}

/// How many calls of each kind there are where none fails: a choice and two own frames of each
/// turn are kept, and two of the other player; a greeting and the own frames are written.
const PLAIN: [(Call, u32); 8] = [
    (Call::LogTo, 1),
    (Call::Listen, 1),
    (Call::Keep, 40),
    (Call::Sync, 3),
    (Call::Dial, 1),
    (Call::Poll, 8),
    (Call::Read, 6),
    (Call::Write, 17),
];

const CALLS: u32 = 77;

/// Whether these are the calls of a match in which none fails.
fn are_plain(heard: &Heard) -> bool {
    for (kind, count) in PLAIN {
        if heard.count(kind) != count {
            return false;
        }
    }
    heard.inner.calls() == CALLS
}

/// Whether the run whose call of that number fails ends as it is to, by what that call is where
/// none fails.
fn ends_at_call(
    alloc: Global,
    session: &Session,
    plain: &Heard,
    number: u32,
) -> Result<bool, Fail> {
    let call = plain.call(number).ok_or("call")?;
    let net = failed(alloc, session, Fails::Call(number))?;
    fails_well(alloc, session, &net, number, call)
}

/// Whether the run ends as it is to whichever of its calls fails, by the calls of a match in which
/// none does.
fn all_end(alloc: Global, session: &Session, plain: &Net) -> Result<bool, Fail> {
    let heard = plain.side(0)?.heard();
    for number in 1..=CALLS {
        if !ends_at_call(alloc, session, heard, number)? {
            return Ok(false);
        }
    }
    Ok(plain.is_done() && are_plain(heard))
}

fn each_ends(alloc: Global, session: &Session) -> Result<bool, Fail> {
    let plain = failed(alloc, session, Fails::Nothing)?;
    all_end(alloc, session, &plain)
}

#[test]
fn each_call_fails_in_turn(rt: HostRuntime) -> Result<(), Fail> {
    let alloc = rt.alloc();
    let session = session_of(alloc, FAR)?;
    let each_ends = each_ends(alloc, &session)?;
    assert!(rt; each_ends);
    Ok(())
}

/// Whether a call ends the run where it fails.
fn is_end(call: Option<Call>) -> bool {
    match call {
        None => false,
        Some(call) => named(call) != Ended::Done,
    }
}

/// Whether the run whose calls failed from that number on ended by the first of these that ends a
/// run, and no call came after it.
fn fails_on(heard: &Heard, ended: Option<Ended>, number: u32) -> bool {
    let last = heard.inner.calls();
    for call in number..last {
        if is_end(heard.call(call)) {
            return false;
        }
    }
    let call = heard.call(last);
    ends_there(heard, last) && is_end(call) && ended == call.map(named)
}

/// Whether the run whose calls fail from that number on ends as it is to, and leaves a log of what
/// went out.
fn ends_from_call(alloc: Global, session: &Session, number: u32) -> Result<bool, Fail> {
    let net = failed(alloc, session, Fails::From(number))?;
    let side = net.side(0)?;
    let keeps = keeps_in_order(alloc, session, side)?;
    Ok(keeps && fails_on(side.heard(), side.ended(), number))
}

#[test]
fn all_calls_fail_from_each_on(rt: HostRuntime) -> Result<(), Fail> {
    let alloc = rt.alloc();
    let session = session_of(alloc, FAR)?;
    for number in 1..=CALLS {
        let ends = ends_from_call(alloc, &session, number)?;
        assert!(rt; ends, "from call {number}");
    }
    Ok(())
}
