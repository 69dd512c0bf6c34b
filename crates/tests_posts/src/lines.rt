//! A line between the sides of a match, which loses, repeats and reorders what they send.

use crate::sides::{Side, Span};
use bytes::Bytes;
use std::alloc::Global;
use std::test::Fail;

/// How a line carries what a side sent since the last time: the last datagram first, and so often.
#[derive(Clone, Copy)]
pub struct Line {
    pub times: u32,
    /// One of so many datagrams is lost, and none where it is 0.
    pub lost: u32,
}

/// Whether the line loses the datagram of this number.
fn loses(line: &Line, index: u32) -> bool {
    line.lost != 0 && index.wrapping_mul(7).wrapping_add(3) % line.lost == 0
}

/// A copy of a datagram.
fn copy_of(alloc: Global, bytes: &[u8]) -> Result<Bytes, Fail> {
    let mut copy = Vec::new(alloc);
    copy.extend_from_slice(bytes)?;
    match Bytes::from_vec(copy) {
        Ok(bytes) => Ok(bytes),
        Err(_) => Err("memory".into()),
    }
}

/// Carries the datagram of this number to the player at its port.
fn carry_one(alloc: Global, sides: &mut [Side], from: usize, index: u32) -> Result<(), Fail> {
    let Some(side) = sides.get(from) else {
        return Err("no side".into());
    };
    let Some(mailed) = side.sent_at(index) else {
        return Err("no datagram".into());
    };
    let to = usize::from(mailed.port).saturating_sub(7000);
    let copy = copy_of(alloc, mailed.bytes)?;
    match sides.get_mut(to) {
        Some(other) => other.bring(copy),
        None => Err("nobody there".into()),
    }
}

/// Carries these datagrams once, the last one first.
fn carry_span(
    alloc: Global,
    sides: &mut [Side],
    from: usize,
    line: &Line,
    span: Span,
) -> Result<(), Fail> {
    for back in 0..span.end.saturating_sub(span.first) {
        let index = span.end.saturating_sub(back).saturating_sub(1);
        if !loses(line, index) {
            carry_one(alloc, sides, from, index)?;
        }
    }
    Ok(())
}

/// Carries what the side of this number sent since the last time.
pub fn carry(alloc: Global, sides: &mut [Side], from: usize, line: &Line) -> Result<(), Fail> {
    let span = match sides.get_mut(from) {
        Some(side) => side.take_sent(),
        None => return Err("no side".into()),
    };
    for _ in 0..line.times {
        carry_span(alloc, sides, from, line, span)?;
    }
    Ok(())
}
