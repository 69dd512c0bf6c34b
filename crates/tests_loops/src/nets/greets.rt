//! What a harness itself says on a socket.

use crate::nets::frames::put;
use definitions::{Place, PlayerId};
use grid_world::Session;
use match_sides::texts::pass_of;
use peer_core::Peer;
use std::alloc::Global;
use std::test::Fail;
use wire_frames::Frame;

/// The greeting of one player to another one.
pub fn hello(session: &Session, from: PlayerId, to: PlayerId, next: Place) -> Frame {
    let id = *session.id();
    let pass = pass_of(from, to);
    Frame::Hello {
        id,
        player: from,
        pass,
        next,
    }
}

/// Adds the frames that the peer made, from this place on.
pub fn put_made_from(peer: &Peer, from: Place, out: &mut Vec<u8>) -> Result<(), Fail> {
    for place in from..peer.made_count() {
        let mut bytes = [0; 64];
        if let Some(count) = peer.put_made(place, &mut bytes) {
            out.extend_from_slice(&bytes[..count])?;
        }
    }
    Ok(())
}

/// The place that is asked for by a greeting at the front of these bytes.
pub fn place_asked(bytes: &[u8]) -> Option<Place> {
    if bytes.len() < 56 {
        return None;
    }
    Some(u32::from_be_bytes([bytes[52], bytes[53], bytes[54], bytes[55]]))
}

/// What the player of this peer says to another one that greets: its own greeting, and its frames
/// from the place that is asked for.
pub fn reply(alloc: Global, peer: &Peer, to: PlayerId, asked: Place) -> Result<Vec<u8>, Fail> {
    let mut out = Vec::new(alloc);
    if to >= peer.session().players() {
        return Err("no player".into());
    }
    let next = peer.player(to).next;
    put(&mut out, &hello(peer.session(), peer.me(), to, next))?;
    put_made_from(peer, asked, &mut out)?;
    Ok(out)
}
