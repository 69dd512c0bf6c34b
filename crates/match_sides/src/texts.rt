//! Sessions, scripts and rosters.

use definitions::PlayerId;
use grid_world::{Session, read_session};
use pilots::ScriptPilot;
use std::alloc::Global;
use std::test::Fail;

/// The session of a text.
pub fn session_of(alloc: Global, text: &[u8]) -> Result<Session, Fail> {
    match read_session(alloc, text) {
        Ok(session) => Ok(session),
        Err(_) => Err("session".into()),
    }
}

/// The moves of a text.
pub fn script_of(alloc: Global, text: &[u8], session: &Session) -> Result<ScriptPilot, Fail> {
    match ScriptPilot::read(alloc, text, session) {
        Ok(pilot) => Ok(pilot),
        Err(_) => Err("moves".into()),
    }
}

/// The last digit of a number.
fn digit(number: u8) -> u8 {
    b'0'.saturating_add(number % 10)
}

/// The digits of the pass that one player shows to another.
fn put_pass(out: &mut Vec<u8>, from: PlayerId, to: PlayerId) -> Result<(), Fail> {
    let first = digit(from);
    let second = digit(to);
    for _ in 0..16 {
        out.push(first)?;
        out.push(second)?;
    }
    Ok(())
}

/// The pass that one player shows to another.
pub fn pass_of(from: PlayerId, to: PlayerId) -> [u8; 16] {
    [(from % 10).saturating_mul(16).saturating_add(to % 10); 16]
}

/// Adds the line of another player, who is found at the place of this number.
fn put_link(
    alloc: Global,
    out: &mut Vec<u8>,
    me: PlayerId,
    other: PlayerId,
    place: u8,
) -> Result<(), Fail> {
    let line = format!(in alloc; "peer {other} 127.0.0.1 700{place} ")?;
    out.extend_from_slice(line.as_bytes())?;
    put_pass(out, me, other)?;
    out.push(b' ')?;
    put_pass(out, other, me)?;
    out.push(b'\n')?;
    Ok(())
}

/// The roster of a player at the place of this number: where it finds each of the others.
pub fn roster_at(
    alloc: Global,
    place: u8,
    me: PlayerId,
    others: &[(PlayerId, u8)],
) -> Result<Vec<u8>, Fail> {
    let mut out = Vec::new(alloc);
    let head = format!(in alloc; "roster 1\nme 127.0.0.1 700{place}\n")?;
    out.extend_from_slice(head.as_bytes())?;
    for (other, at) in others {
        put_link(alloc, &mut out, me, *other, *at)?;
    }
    out.extend_from_slice(b"end\n")?;
    Ok(out)
}

/// The roster of a player among so many, each at the place of its own number.
pub fn roster_of(alloc: Global, me: PlayerId, players: PlayerId) -> Result<Vec<u8>, Fail> {
    let mut others = Vec::new(alloc);
    for other in 0..players {
        if other != me {
            others.push((other, other))?;
        }
    }
    roster_at(alloc, me, me, &others)
}
