//! Roots and seals, with values of an independent program, and seals with a changed bit.

use crate::frames::{PATH, frame, keys_of, sealed, session_of};
use definitions::{TurnFrame, What};
use grid_world::Session;
use hex::encode;
use seal_keys::{Seal, valid};
use sha2::{Digest as _, Sha256};
use std::alloc::Global;
use std::test::Fail;

/// A session of version 2, two turns ahead, whose tree has leaves past the last place.
const AHEAD: &[u8] =
    b"playout 2\ngrid 12 1\nrules 1 1 0\ncharge 1 2 1\nturns 5\nahead 2\nplayers 2\n\
    player 0 0 0\nplayer 1 9 0\nend\n";

/// The bytes 0, 1, .., 31.
fn counted() -> [u8; 32] {
    let mut seed = [0; 32];
    for i in 0..32u8 {
        seed[usize::from(i)] = i;
    }
    seed
}

/// Whether these digits spell the bytes.
fn spells(alloc: Global, bytes: &[u8], digits: &str) -> Result<bool, Fail> {
    let text = encode(alloc, bytes)?;
    Ok(text.as_str() == digits)
}

#[test]
fn roots_of_keys(rt: HostRuntime) -> Result<(), Fail> {
    let alloc = rt.alloc();
    for (text, root) in [
        (
            PATH,
            "23e46fef082ec09262acbd688f114e780537b7ce1845afbc9a31eb7bfc774ee2",
        ),
        (
            AHEAD,
            "c5ffed4e27c1c9fb5a02abe48d261dc1035ae3ecc881604c44ef265fe2a831a2",
        ),
    ] {
        let session = session_of(alloc, text)?;
        let keys = keys_of(alloc, &session, &counted())?;
        let is_root = spells(alloc, &keys.root(), root)?;
        assert!(rt; is_root);
    }
    Ok(())
}

/// Whether the seal is valid for the frame when one bit of this byte is changed.
fn is_valid_changed(
    alloc: Global,
    session: &Session,
    root: &[u8; 32],
    frame: &TurnFrame,
    seal: &Seal,
    at: usize,
) -> Result<bool, Fail> {
    let mut bytes = Vec::from_slice(alloc, seal.bytes())?;
    let mut changed = Seal::new(alloc, session)?;
    if at >= bytes.len() || bytes.len() != changed.bytes().len() {
        return Err("another length".into());
    }
    bytes[at] ^= 128;
    changed.set(&bytes);
    Ok(valid(session, root, frame, &changed))
}

#[test]
fn seals_of_frames(rt: HostRuntime) -> Result<(), Fail> {
    let alloc = rt.alloc();
    for (text, what, turn, digest) in [
        (
            PATH,
            What::Commit,
            0,
            "e395317f6a9e8e2bf7c5c8ded4482ce5c5a72bf3a30cd0eecb1544c1c8c31418",
        ),
        (
            PATH,
            What::Reveal,
            4,
            "b69d92d50795c59f75740f0e305f1cf788184bd807321364a660e83467787d63",
        ),
        (
            AHEAD,
            What::Commit,
            4,
            "3f866bfdf9820a86a507831789f5f582e2f1b3a4a1fa4ac053421262c58c5999",
        ),
        (
            AHEAD,
            What::Reveal,
            0,
            "bcd11628db970a3dca5d094015646f7009c50c4961470a929fc8932ef2b804f2",
        ),
    ] {
        let session = session_of(alloc, text)?;
        let keys = keys_of(alloc, &session, &counted())?;
        let one = frame(&session, what, turn, 7);
        let seal = sealed(alloc, &session, &counted(), &one)?;
        assert_eq!(rt; seal.bytes().len(), 16_512);
        let is_seal = spells(alloc, &Sha256::digest(seal.bytes()), digest)?;
        assert!(rt; is_seal);
        assert!(rt; valid(&session, &keys.root(), &one, &seal));
        // the first and the last disclosed value, other public value, and sibling
        for at in [0, 8191, 8192, 16_383, 16_384, 16_511] {
            let is_valid = is_valid_changed(alloc, &session, &keys.root(), &one, &seal, at)?;
            assert!(rt; !is_valid);
        }
    }
    Ok(())
}
