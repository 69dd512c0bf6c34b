//! Choices and sessions as an independent program of the same generator gave them.

use crate::sessions::session_of;
use definitions::{Cell, Move, Track};
use grid_world::Session;
use hex::decode_to_slice;
use make_command::make_session;
use pilots::{BotPilot, Pilot};
use std::alloc::Global;
use std::test::Fail;

/// A session of version 2 on a small grid with a wall across most of it. A strike costs 1. Player
/// 0 strikes at 3 and player 1 at 2.
const SMALL: &[u8] =
    b"playout 2\ngrid 5 4\nrules 1 3 0\ncharge 1 3 1\nturns 8\nahead 1\nplayers 2\nplayer 0 1 1\nplayer 1 4 3 1 2\nwall 2 0\nwall 2 1\nwall 2 2\nend\n";

/// Where a bot stands, its charge, where it goes, and what it strikes, if anything.
type Row = ((u16, u16), u8, (u16, u16), Option<(u16, u16)>);

/// The cell of this column and row.
fn cell(place: (u16, u16)) -> Cell {
    Cell {
        x: place.0,
        y: place.1,
    }
}

/// The first choices of bot 3.
const BOT_3: [Row; 8] = [
    ((1, 1), 1, (1, 1), None),
    ((1, 1), 2, (1, 0), Some((0, 0))),
    ((1, 0), 1, (1, 0), None),
    ((1, 0), 2, (1, 0), Some((2, 0))),
    ((1, 0), 1, (0, 0), Some((0, 0))),
    ((0, 0), 0, (1, 1), None),
    ((1, 1), 1, (1, 1), Some((2, 0))),
    ((1, 1), 0, (0, 2), None),
];

/// The first choices of the bot of the last number.
const LAST_BOT: [Row; 8] = [
    ((1, 1), 1, (1, 1), Some((3, 2))),
    ((1, 1), 0, (1, 1), None),
    ((1, 1), 1, (1, 1), None),
    ((1, 1), 2, (1, 0), Some((0, 0))),
    ((1, 0), 1, (1, 0), Some((0, 0))),
    ((1, 0), 0, (1, 0), None),
    ((1, 0), 1, (1, 0), None),
    ((1, 0), 2, (0, 0), Some((1, 0))),
];

/// What any pilot chooses in this turn from this track.
pub(crate) fn asked<P: Pilot>(pilot: &mut P, track: &Track, turn: u32) -> Move {
    pilot.choose(track, turn)
}

/// Whether the bot of this number makes these choices.
fn chooses(session: &Session, number: u64, rows: &[Row]) -> bool {
    let mut bot = BotPilot::new(number, session);
    for row in rows {
        let track = Track {
            at: cell(row.0),
            charge: row.1,
        };
        let wanted = Move {
            to: cell(row.2),
            strike: row.3.map(cell),
        };
        if asked(&mut bot, &track, 0) != wanted {
            return false;
        }
    }
    true
}

#[test]
fn bots_choose_by_their_numbers(rt: HostRuntime) -> Result<(), Fail> {
    let session = session_of(rt.alloc(), SMALL)?;
    assert!(rt; chooses(&session, 3, &BOT_3));
    assert!(rt; chooses(&session, u64::MAX, &LAST_BOT));
    assert!(rt; !chooses(&session, 4, &BOT_3));
    Ok(())
}

/// Whether the session of this number has this id, as hexadecimal text.
fn is_made(alloc: Global, number: u64, id: &str) -> Result<bool, Fail> {
    let session = make_session(alloc, number)?;
    let mut bytes = [0; 32];
    decode_to_slice(id.as_bytes(), &mut bytes).map_err(|_| "no digits")?;
    Ok(*session.id() == bytes)
}

#[test]
fn sessions_are_made_of_their_numbers(rt: HostRuntime) -> Result<(), Fail> {
    let rows = [
        (
            0,
            "53510eaa38769bc27b70556af188b63c9d91108f3db00e0637df00fab454892d",
        ),
        (
            7,
            "4219029a71b5754831079182dbff7ce5eaed36e496d2a24acac27517501949ab",
        ),
        (
            u64::MAX,
            "65662b790a4259982e99ff5343491ff1061b9fbdc900af84191a5dafd8b1d28e",
        ),
    ];
    for (number, id) in rows {
        let is_made = is_made(rt.alloc(), number, id)?;
        assert!(rt; is_made, "{number}");
    }
    Ok(())
}
