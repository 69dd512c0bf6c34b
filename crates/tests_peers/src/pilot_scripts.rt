//! What is chosen by a text of moves.

use crate::pilot_moves::asked;
use crate::sessions::session_of;
use definitions::{Cell, Move, Track};
use pilots::{ScriptPilot, print_moves};
use std::test::Fail;

/// A session of eight turns.
const LONG: &[u8] =
    b"playout 1\ngrid 12 1\nrules 1 1 0\ncharge 1 2 1\nturns 8\nplayers 2\nplayer 0 0 0\nplayer 1 9 0\nend\n";

/// Where the script sends a player in this turn that stands at column 7.
fn sent(pilot: &mut ScriptPilot, turn: u32) -> Move {
    let track = Track {
        at: Cell { x: 7, y: 0 },
        charge: 1,
    };
    asked(pilot, &track, turn)
}

/// A move to this column, without a strike.
fn step(x: u16) -> Move {
    Move {
        to: Cell { x, y: 0 },
        strike: None,
    }
}

#[test]
fn a_script_is_followed_and_then_stays(rt: HostRuntime) -> Result<(), Fail> {
    let session = session_of(rt.alloc(), LONG)?;
    let text = b"0 0\n0 0\n0 0\n2 0\n0 0\n0 0 65535 1\n0 0\n1 0\n".as_slice();
    let mut pilot = ScriptPilot::read(rt.alloc(), text, &session).map_err(|_| "refused")?;
    assert_eq!(rt; sent(&mut pilot, 2), step(0));
    assert_eq!(rt; sent(&mut pilot, 3), step(2));
    assert_eq!(rt; sent(&mut pilot, 7), step(1));
    assert_eq!(rt; sent(&mut pilot, 8), step(7));
    assert_eq!(rt; sent(&mut pilot, u32::MAX), step(7));
    let strike = Some(Cell { x: 65535, y: 1 });
    assert_eq!(rt; sent(&mut pilot, 5).strike, strike);
    let printed = print_moves(rt.alloc(), pilot.moves())?;
    assert!(rt; printed.as_slice() == text);
    Ok(())
}
