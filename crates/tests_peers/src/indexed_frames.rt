//! Very many frames of one turn.

use crate::sessions::session_of;
use commitment::frame_of;
use definitions::limits::LONGEST_LOG;
use definitions::{Cell, Finding, Kind, Move, Nonce, Opening, PlayerId, Spot, TurnFrame, What};
use frame_index::{FrameIndex, MOST_LOGS, findings};
use grid_world::Session;
use move_rules::Walker;
use std::alloc::{AllocError, Global};
use std::test::Fail;

const CORRIDOR: &[u8] =
    b"playout 1\ngrid 12 1\nrules 1 1 0\ncharge 1 2 1\nturns 8\nplayers 3\nplayer 0 0 0\nplayer 1 9 0\nplayer 2 11 0\nend\n";

/// The player of whom the log has frames.
const PLAYER: PlayerId = 2;

/// The findings of an index.
fn all_findings(
    alloc: Global,
    session: &Session,
    index: &FrameIndex,
) -> Result<Vec<Finding>, Fail> {
    let mut walker = Walker::new(alloc, session.grid())?;
    Ok(findings(alloc, session, &mut walker, index, &[])?)
}

/// Takes a frame that a log got. It is passed over past the numbers that an index takes.
fn take(
    index: &mut FrameIndex,
    session: &Session,
    frame: &TurnFrame,
    spot: Spot,
) -> Result<(), AllocError> {
    if spot.log >= MOST_LOGS || spot.entry as usize >= LONGEST_LOG {
        return Ok(());
    }
    index.take(session, frame, spot)
}

/// How many different reveals a log gets of one turn.
const MANY: u32 = 100_000;

/// The nonce of a number.
fn numbered(number: u32) -> Nonce {
    let mut bytes = [0; 32];
    bytes[0] = (number % 256) as u8;
    bytes[1] = (number / 256 % 256) as u8;
    bytes[2] = (number / 65_536 % 256) as u8;
    Nonce { bytes }
}

/// A frame of the first turn, in which the player stays, with the nonce of that number.
fn shown(session: &Session, what: What, number: u32) -> TurnFrame {
    let nonce = numbered(number);
    let own = Opening {
        player: PLAYER,
        turn: 0,
        mv: Move {
            to: Cell { x: 11, y: 0 },
            strike: None,
        },
        nonce,
    };
    frame_of(session.id(), what, &own)
}

/// Takes a reveal of the turn, with the nonce of that number.
fn take_reveal(index: &mut FrameIndex, session: &Session, number: u32) -> Result<(), AllocError> {
    let frame = shown(session, What::Reveal, number);
    let entry = number.saturating_add(1);
    take(index, session, &frame, Spot { log: 0, entry })
}

/// Takes a commitment and many different reveals of its turn, of which the first opens it.
fn take_many(index: &mut FrameIndex, session: &Session) -> Result<(), AllocError> {
    let commit = shown(session, What::Commit, 0);
    take(index, session, &commit, Spot { log: 0, entry: 0 })?;
    for number in 0..MANY {
        take_reveal(index, session, number)?;
    }
    Ok(())
}

#[test]
fn many_reveals_of_one_turn_are_not_compared_one_by_one(rt: HostRuntime) -> Result<(), Fail> {
    let alloc = rt.alloc();
    let session = session_of(alloc, CORRIDOR)?;
    let mut index = FrameIndex::new(alloc);
    take_many(&mut index, &session)?;
    let found = all_findings(alloc, &session, &index)?;
    let expected = Finding {
        player: PLAYER,
        turn: 0,
        kind: Kind::BadOpening,
        first: Spot { log: 0, entry: 0 },
        second: Spot { log: 0, entry: 2 },
    };
    assert!(rt; found.as_slice() == [expected].as_slice());
    Ok(())
}
