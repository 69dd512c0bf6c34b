//! What comes on a socket that the loop dialled itself, and beside it.

use crate::nets::frames::put;
use crate::nets::greets::hello;
use crate::nets::grounds::NEAR;
use crate::nets::setups::{STAY_0, alone};
use crate::nets::sides::{NARROW, Player};
use grid_world::Session;
use match_sides::texts::{script_of, session_of};
use pilots::ScriptPilot;
use ready_loop::Spent;
use socket_station::SocketId;
use std::alloc::Global;
use std::test::Fail;
use wire_frames::Frame;

/// A round whose poll lists what was brought, and one that handles it.
fn hear(side: &mut Player, pilot: &mut ScriptPilot) {
    side.round(pilot);
    side.round(pilot);
}

/// How many bytes of commitments were given on the first socket after the greeting.
fn given_after(alloc: Global, side: &Player) -> Result<usize, Fail> {
    Ok(side.given(alloc, 0, 0)?.len().saturating_sub(56))
}

/// Brings a frame on the socket.
fn bring(alloc: Global, side: &mut Player, socket: SocketId, frame: &Frame) -> Result<(), Fail> {
    let mut out = Vec::new(alloc);
    put(&mut out, frame)?;
    side.bring(alloc, socket, &out, 4096)
}

/// Player 0, that dialled player 1 by socket 0.
fn dialling(alloc: Global, session: &Session, pilot: &mut ScriptPilot) -> Result<Player, Fail> {
    let mut side = alone(alloc, session, 0, NARROW)?;
    side.round(pilot);
    Ok(side)
}

/// A frame comes on socket 0, and is handled.
fn hear_frame(
    alloc: Global,
    side: &mut Player,
    pilot: &mut ScriptPilot,
    frame: &Frame,
) -> Result<(), Fail> {
    bring(alloc, side, 0, frame)?;
    hear(side, pilot);
    Ok(())
}

/// Whether so many wants are counted and obeyed: the commitment of turn 0 went out once, and once
/// more for each of them.
fn has_obeyed(alloc: Global, side: &Player, wants: u32) -> Result<bool, Fail> {
    let bytes = (wants as usize).saturating_mul(40).saturating_add(40);
    let given = given_after(alloc, side)?;
    Ok(side.it().spent(1).wants == wants && given == bytes)
}

/// What is read of a greeting and 65 wants, of which the last is not obeyed.
const WANTED: Spent = Spent {
    read: 56 + 65 * 7,
    wants: 64,
};

/// Whether each of so many wants is obeyed as it comes.
fn obeys_each(
    alloc: Global,
    side: &mut Player,
    pilot: &mut ScriptPilot,
    count: u32,
) -> Result<bool, Fail> {
    for wants in 0..count {
        if !has_obeyed(alloc, side, wants)? {
            return Ok(false);
        }
        hear_frame(alloc, side, pilot, &Frame::Want { place: 0 })?;
    }
    Ok(true)
}

/// Whether the side obeys the wants after a greeting up to their number: the last one is one too
/// many.
fn obeys(
    alloc: Global,
    session: &Session,
    side: &mut Player,
    pilot: &mut ScriptPilot,
) -> Result<bool, Fail> {
    let greeting = hello(session, 1, 0, 0);
    hear_frame(alloc, side, pilot, &greeting)?;
    let obeys = obeys_each(alloc, side, pilot, 65)?;
    let has_obeyed = has_obeyed(alloc, side, 64)?;
    Ok(obeys && has_obeyed && side.it().spent(1) == WANTED && side.station().is_open(0))
}

#[test]
fn wants_are_obeyed_up_to_their_number(rt: HostRuntime) -> Result<(), Fail> {
    let alloc = rt.alloc();
    let session = session_of(alloc, NEAR)?;
    let mut pilot = script_of(alloc, STAY_0, &session)?;
    let mut side = dialling(alloc, &session, &mut pilot)?;
    let obeys = obeys(alloc, &session, &mut side, &mut pilot)?;
    assert!(rt; obeys);
    Ok(())
}

/// A greeting of the other player comes on the socket, and is handled.
fn hear_greeting(
    alloc: Global,
    session: &Session,
    side: &mut Player,
    pilot: &mut ScriptPilot,
    socket: SocketId,
) -> Result<(), Fail> {
    let me = side.peer().me();
    let other = if me == 0 { 1 } else { 0 };
    let greeting = hello(session, other, me, 0);
    bring(alloc, side, socket, &greeting)?;
    hear(side, pilot);
    Ok(())
}

/// Whether the first socket is shut and the second one open, two greetings of player 1 were read,
/// and it wasn't dialled again.
fn has_given_way(side: &Player, first: SocketId, second: SocketId) -> bool {
    let station = side.station();
    !station.is_open(first)
        && station.is_open(second)
        && side.it().spent(1).read == 112
        && station.dials(1) == 1
}

/// Whether the first of the two sockets that player 1 is named by gives way to the second one:
/// socket 0 was dialled, and socket 1 is accepted.
fn gives_way(
    alloc: Global,
    session: &Session,
    side: &mut Player,
    pilot: &mut ScriptPilot,
    first: SocketId,
) -> Result<bool, Fail> {
    let second = if first == 0 { 1 } else { 0 };
    let was_dialled = side.station().dialled(1) == Some(0);
    let is_accepted = side.accept() == Some(1);
    side.round(pilot);
    hear_greeting(alloc, session, side, pilot, first)?;
    let were_open = side.station().is_open(0) && side.station().is_open(1);
    hear_greeting(alloc, session, side, pilot, second)?;
    let has_given_way = has_given_way(side, first, second);
    Ok(was_dialled && is_accepted && were_open && has_given_way)
}

fn first_gives_way(alloc: Global, session: &Session, first: SocketId) -> Result<bool, Fail> {
    let mut pilot = script_of(alloc, STAY_0, session)?;
    let mut side = dialling(alloc, session, &mut pilot)?;
    gives_way(alloc, session, &mut side, &mut pilot, first)
}

#[test]
fn a_dialled_socket_gives_way_to_an_accepted_one(rt: HostRuntime) -> Result<(), Fail> {
    let alloc = rt.alloc();
    let session = session_of(alloc, NEAR)?;
    // the socket that was dialled is named first, or the one that was accepted: that which is
    // named later stays
    for first in [0, 1] {
        let gives_way = first_gives_way(alloc, &session, first)?;
        assert!(rt; gives_way, "{first}");
    }
    Ok(())
}
