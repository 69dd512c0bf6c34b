//! Two different reveals of one turn with one digest, among many.

use crate::frames::{goes, reveal, session_of};
use definitions::{Digest, Spot};
use frame_index::Seen;
use frame_index::pairs::{bad_opening, collision};
use grid_world::Session;
use std::alloc::{AllocError, Global};
use std::test::Fail;

const CORRIDOR: &[u8] =
    b"playout 1\ngrid 12 1\nrules 1 1 0\ncharge 1 2 1\nturns 8\nplayers 3\nplayer 0 0 0\n\
    player 1 9 0\nplayer 2 11 0\nend\n";

/// The reveal of that number. Its digest is of that number too, but for the one of number 70,
/// which has that of number 5.
fn seen_of(session: &Session, number: u8) -> Seen {
    let entry = u32::from(number);
    let spot = Spot { log: 0, entry };
    let frame = reveal(session, &goes(2, 0, 11, number));
    let byte = if number == 70 { 5 } else { number };
    let digest = Digest { bytes: [byte; 32] };
    Seen {
        spot,
        frame,
        digest,
    }
}

/// A hundred different reveals of a turn. Their digests are not those of their openings: no two
/// openings with one are known.
fn colliding(alloc: Global, session: &Session) -> Result<Vec<Seen>, AllocError> {
    let mut seen = Vec::new(alloc);
    for number in 0..100 {
        let one = seen_of(session, number);
        seen.push(one)?;
    }
    Ok(seen)
}

#[test]
fn a_collision_is_found_among_many(rt: HostRuntime) -> Result<(), Fail> {
    let alloc = rt.alloc();
    let session = session_of(alloc, CORRIDOR)?;
    let seen = colliding(alloc, &session)?;
    let first = Spot { log: 0, entry: 0 };
    let second = Spot { log: 0, entry: 1 };
    assert!(rt; bad_opening(&seen) == Some((first, second)));
    let first = Spot { log: 0, entry: 5 };
    let second = Spot { log: 0, entry: 70 };
    let found = collision(alloc, &seen)?;
    assert!(rt; found == Some((first, second)));
    Ok(())
}
