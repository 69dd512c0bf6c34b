//! Frames of a player who stays in its cell, its keys, and seals by them.

ghost use Rattle.std.specs.Prelude.{◌≡◌, IfOk};

use commitment::frame_of;
use definitions::{Cell, Move, Nonce, Opening, PlayerId, Turn, TurnFrame, What};
use grid_world::{Session, read_session};
use seal_keys::{Seal, SealAnswer, SealKeys};
use sealed_evidence::Roots;
use std::alloc::{AllocError, Global};
use std::test::Fail;

/// A session of version 1, whose eight turns have as many places as a tree has leaves.
pub const PATH: &[u8] = b"playout 1\ngrid 12 1\nrules 1 1 0\ncharge 1 2 1\nturns 8\nplayers 2\n\
    player 0 0 0\nplayer 1 9 0\nend\n";

/// The player whose frames these are.
pub const PLAYER: PlayerId = 1;

/// The session of a text.
pub fn session_of(alloc: Global, text: &[u8]) -> Result<Session, Fail> {
    match read_session(alloc, text) {
        Err(_) => Err("refused".into()),
        Ok(session) => Ok(session),
    }
}

/// The frame of the player's turn, in which it stays, with a nonce of equal bytes.
pub fn frame(session: &Session, what: What, turn: Turn, byte: u8) -> TurnFrame {
    let to = Cell { x: 9, y: 0 };
    let opening = Opening {
        player: PLAYER,
        turn,
        mv: Move { to, strike: None },
        nonce: Nonce { bytes: [byte; 32] },
    };
    frame_of(session.id(), what, &opening)
}

/// The player's keys, by this seed.
pub fn keys_of(alloc: Global, session: &Session, seed: &[u8; 32]) -> Result<SealKeys, Fail>
    ensures game { IfOk result (λ keys. keys.game ≡ session.now) }
{
    if session.players() <= PLAYER {
        return Err("no such player".into());
    }
    let keys = SealKeys::new(alloc, session, PLAYER, seed)?;
    Ok(keys)
}

/// The frame's seal, by keys of this seed that seal nothing else.
pub fn sealed(
    alloc: Global,
    session: &Session,
    seed: &[u8; 32],
    frame: &TurnFrame,
) -> Result<Seal, Fail> {
    let mut keys = keys_of(alloc, session, seed)?;
    let mut seal = Seal::new(alloc, session)?;
    if keys.seal(frame, &mut seal) != SealAnswer::Done {
        return Err("not sealed".into());
    }
    Ok(seal)
}

/// Zeros as the root of the other player, and this one's root.
pub fn roots_with(alloc: Global, root: [u8; 32]) -> Result<Roots, AllocError> {
    let mut list = Vec::new(alloc);
    list.push([0; 32])?;
    list.push(root)?;
    Ok(Roots::new(list))
}
