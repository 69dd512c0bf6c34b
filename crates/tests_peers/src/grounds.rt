//! Peers on many grounds, compared with the plain program: where a move leads, and how long one
//! goes on alone.

use crate::plain::{has, mark_of, turns_alone, walk};
use crate::sessions::session_of;
use definitions::{Cell, Move, MoveFault, Nonce, OwnFault};
use grid_world::Session;
use itoa::Buffer;
use peer_core::Peer;
use std::alloc::{AllocError, Global};
use std::test::Fail;

/// Where the walls of a ground stand.
#[derive(Clone, Copy)]
enum Walls {
    None,
    /// Scattered, one cell in so many.
    Scattered(u32),
    /// Every other column, with a way round at the top and at the bottom in turn.
    Labyrinth,
    /// Every other cell, so that only diagonal gaps are left.
    Gaps,
    /// Rooms of seven cells, with a door in the middle of each wall.
    Rooms,
    /// A dead end: one row of wall with a single gap at its right end.
    DeadEnd,
}

/// What a session of version 2 says besides: how many turns ahead players commit, and how far
/// player 1 walks and strikes.
#[derive(Clone, Copy)]
struct Further {
    ahead: u32,
    speed: u8,
    reach: u8,
}

/// A ground, and how far a player walks. The two players start in two corners, strike one cell
/// far, and play 12 turns. Without anything further the session is one of version 1.
struct Setting {
    name: &'static str,
    width: u16,
    height: u16,
    speed: u8,
    walls: Walls,
    further: Option<Further>,
}

const TURNS: u32 = 12;

/// Where player 0 starts.
const AT: Cell = Cell { x: 0, y: 0 };

/// Where player 1 starts.
fn other_of(setting: &Setting) -> Cell {
    let x = setting.width.wrapping_sub(1);
    let y = setting.height.wrapping_sub(1);
    Cell { x, y }
}

static SETTINGS: [Setting; 26] = [
    Setting {
        name: "a corridor",
        width: 40,
        height: 1,
        speed: 1,
        walls: Walls::None,
        further: None,
    },
    Setting {
        name: "a shaft",
        width: 1,
        height: 40,
        speed: 2,
        walls: Walls::None,
        further: None,
    },
    Setting {
        name: "a column with walls",
        width: 1,
        height: 40,
        speed: 2,
        walls: Walls::Scattered(9),
        further: None,
    },
    Setting {
        name: "a room",
        width: 9,
        height: 7,
        speed: 1,
        walls: Walls::None,
        further: None,
    },
    Setting {
        name: "rooms with doors",
        width: 25,
        height: 17,
        speed: 2,
        walls: Walls::Rooms,
        further: None,
    },
    Setting {
        name: "a labyrinth",
        width: 15,
        height: 9,
        speed: 3,
        walls: Walls::Labyrinth,
        further: None,
    },
    Setting {
        name: "diagonal gaps",
        width: 12,
        height: 12,
        speed: 1,
        walls: Walls::Gaps,
        further: None,
    },
    Setting {
        name: "a dead end",
        width: 14,
        height: 5,
        speed: 2,
        walls: Walls::DeadEnd,
        further: None,
    },
    Setting {
        name: "scattered walls",
        width: 20,
        height: 20,
        speed: 2,
        walls: Walls::Scattered(3),
        further: None,
    },
    Setting {
        name: "thick walls",
        width: 20,
        height: 20,
        speed: 4,
        walls: Walls::Scattered(2),
        further: None,
    },
    Setting {
        name: "63 columns",
        width: 63,
        height: 9,
        speed: 5,
        walls: Walls::Scattered(4),
        further: None,
    },
    Setting {
        name: "64 columns",
        width: 64,
        height: 9,
        speed: 5,
        walls: Walls::Scattered(4),
        further: None,
    },
    Setting {
        name: "65 columns",
        width: 65,
        height: 9,
        speed: 5,
        walls: Walls::Scattered(4),
        further: None,
    },
    Setting {
        name: "a labyrinth of 64 columns",
        width: 64,
        height: 5,
        speed: 8,
        walls: Walls::Labyrinth,
        further: None,
    },
    Setting {
        name: "a labyrinth of 65 columns",
        width: 65,
        height: 5,
        speed: 8,
        walls: Walls::Labyrinth,
        further: None,
    },
    Setting {
        name: "256 columns",
        width: 256,
        height: 3,
        speed: 8,
        walls: Walls::Scattered(5),
        further: None,
    },
    Setting {
        name: "256 rows",
        width: 3,
        height: 256,
        speed: 8,
        walls: Walls::Scattered(5),
        further: None,
    },
    Setting {
        name: "the largest ground, open",
        width: 256,
        height: 256,
        speed: 8,
        walls: Walls::None,
        further: None,
    },
    Setting {
        name: "the largest ground",
        width: 256,
        height: 256,
        speed: 8,
        walls: Walls::Scattered(4),
        further: None,
    },
    Setting {
        name: "rooms on the largest ground",
        width: 256,
        height: 256,
        speed: 8,
        walls: Walls::Rooms,
        further: None,
    },
    Setting {
        name: "a corridor, two turns ahead",
        width: 40,
        height: 1,
        speed: 1,
        walls: Walls::None,
        further: Some(Further {
            ahead: 2,
            speed: 2,
            reach: 0,
        }),
    },
    Setting {
        name: "a room, eight turns ahead, beside one that walks and strikes far",
        width: 30,
        height: 30,
        speed: 1,
        walls: Walls::None,
        further: Some(Further {
            ahead: 8,
            speed: 3,
            reach: 8,
        }),
    },
    Setting {
        name: "rooms with doors, beside one that strikes nothing",
        width: 25,
        height: 17,
        speed: 3,
        walls: Walls::Rooms,
        further: Some(Further {
            ahead: 3,
            speed: 1,
            reach: 0,
        }),
    },
    Setting {
        name: "scattered walls, beside a slow one",
        width: 40,
        height: 20,
        speed: 4,
        walls: Walls::Scattered(3),
        further: Some(Further {
            ahead: 1,
            speed: 1,
            reach: 4,
        }),
    },
    Setting {
        name: "1,024 columns",
        width: 1024,
        height: 2,
        speed: 8,
        walls: Walls::Scattered(5),
        further: Some(Further {
            ahead: 4,
            speed: 7,
            reach: 1,
        }),
    },
    Setting {
        name: "1,000 rows of rooms",
        width: 30,
        height: 1000,
        speed: 8,
        walls: Walls::Rooms,
        further: Some(Further {
            ahead: 5,
            speed: 8,
            reach: 8,
        }),
    },
];

/// A number that looks drawn, for a cell.
fn mix(x: u16, y: u16) -> u32 {
    let mixed = u32::from(x)
        .wrapping_mul(2_654_435_761)
        .wrapping_add(u32::from(y).wrapping_mul(2_246_822_519));
    (mixed ^ (mixed >> 15)).wrapping_mul(3_266_489_917) >> 7
}

/// Whether a ground of this kind and size has a wall there.
fn is_wall_of(walls: Walls, width: u16, height: u16, x: u16, y: u16) -> bool {
    match walls {
        Walls::None => false,
        Walls::Scattered(part) => mix(x, y).checked_rem(part) == Some(0),
        Walls::Labyrinth => {
            let end = if x % 4 == 1 {
                height.wrapping_sub(1)
            } else {
                0
            };
            x % 2 == 1 && y != end
        }
        Walls::Gaps => x % 2 != y % 2,
        Walls::Rooms => (x % 8 == 7 && y % 8 != 3) || (y % 8 == 7 && x % 8 != 3),
        Walls::DeadEnd => y == 2 && x != width.wrapping_sub(1),
    }
}

/// Adds a text at the end.
fn add(text: &mut Vec<u8>, part: &[u8]) -> Result<(), AllocError> {
    for byte in part {
        text.push(*byte)?;
    }
    Ok(())
}

/// Adds a line of a word and two numbers.
fn add_pair(text: &mut Vec<u8>, word: &[u8], first: u32, second: u32) -> Result<(), AllocError> {
    add(text, word)?;
    add(text, Buffer::new().format(first).as_bytes())?;
    text.push(b' ')?;
    add(text, Buffer::new().format(second).as_bytes())?;
    text.push(b'\n')?;
    Ok(())
}

/// Adds the lines of the walls.
fn add_walls(text: &mut Vec<u8>, setting: &Setting) -> Result<(), AllocError> {
    for y in 0..setting.height {
        for x in 0..setting.width {
            let cell = Cell { x, y };
            let wall = is_wall_of(setting.walls, setting.width, setting.height, x, y);
            if wall && cell != AT && cell != other_of(setting) {
                add_pair(text, b"wall ", u32::from(x), u32::from(y))?;
            }
        }
    }
    Ok(())
}

/// The first line.
fn version_of(setting: &Setting) -> &'static [u8] {
    match setting.further {
        None => b"playout 1\n",
        Some(_) => b"playout 2\n",
    }
}

/// Adds the line of the turns ahead, if there is one.
fn add_ahead(text: &mut Vec<u8>, setting: &Setting) -> Result<(), AllocError> {
    if let Some(further) = setting.further {
        add(text, b"ahead ")?;
        add(text, Buffer::new().format(further.ahead).as_bytes())?;
        text.push(b'\n')?;
    }
    Ok(())
}

/// Adds the line of player 1.
fn add_other(text: &mut Vec<u8>, setting: &Setting) -> Result<(), AllocError> {
    let other = other_of(setting);
    add(text, b"player 1 ")?;
    match setting.further {
        None => add_pair(text, b"", u32::from(other.x), u32::from(other.y)),
        Some(further) => {
            add(text, Buffer::new().format(other.x).as_bytes())?;
            text.push(b' ')?;
            add(text, Buffer::new().format(other.y).as_bytes())?;
            text.push(b' ')?;
            add_pair(
                text,
                b"",
                u32::from(further.speed),
                u32::from(further.reach),
            )
        }
    }
}

/// The session text of a setting.
fn text_of(alloc: Global, setting: &Setting) -> Result<Vec<u8>, AllocError> {
    let mut text = Vec::new(alloc);
    add(&mut text, version_of(setting))?;
    add_pair(
        &mut text,
        b"grid ",
        u32::from(setting.width),
        u32::from(setting.height),
    )?;
    add(&mut text, b"rules ")?;
    add(&mut text, Buffer::new().format(setting.speed).as_bytes())?;
    add_pair(&mut text, b" ", 1, 0)?;
    add(&mut text, b"charge 0 0 0\nturns ")?;
    add(&mut text, Buffer::new().format(TURNS).as_bytes())?;
    text.push(b'\n')?;
    add_ahead(&mut text, setting)?;
    add(&mut text, b"players 2\n")?;
    add_pair(&mut text, b"player 0 ", 0, 0)?;
    add_other(&mut text, setting)?;
    add_walls(&mut text, setting)?;
    add(&mut text, b"end\n")?;
    Ok(text)
}

/// Why the peer may not go there now, if it may not; where it may, it goes on as far as it may.
fn goes(peer: &mut Peer, to: Cell) -> Option<OwnFault> {
    let mv = Move { to, strike: None };
    let fault = peer.choose(mv, Nonce { bytes: [0; 32] }).err();
    peer.advance();
    fault
}

/// How many turns player 0 reveals that stays where it is and hears nothing.
fn turns_played(alloc: Global, session: &Session, at: Cell) -> Result<u32, AllocError> {
    session.facts();
    let mut peer = Peer::new(alloc, session, 0)?;
    for _turn in 0..session.turns() {
        goes(&mut peer, at);
    }
    Ok(peer.turn())
}

/// Whether player 0 may move there in its first turn, by a peer.
fn moves(alloc: Global, session: &Session, to: Cell) -> Result<Option<OwnFault>, AllocError> {
    session.facts();
    let mut peer = Peer::new(alloc, session, 0)?;
    Ok(goes(&mut peer, to))
}

/// What a move there should be answered, by the plain program.
fn should_answer(session: &Session, reached: bool, to: Cell) -> Option<OwnFault> {
    if !session.grid().inside(to) {
        Some(OwnFault::Illegal(MoveFault::Outside))
    } else if session.grid().wall(to) {
        Some(OwnFault::Illegal(MoveFault::Wall))
    } else if reached {
        None
    } else {
        Some(OwnFault::Illegal(MoveFault::TooFar))
    }
}

/// Whether peer and plain program agree on all targets near the corner at which player 0 starts.
fn agree_on_moves(alloc: Global, session: &Session, at: Cell) -> Result<bool, AllocError> {
    session.facts();
    let start = mark_of(alloc, session.grid(), at)?;
    let reached = walk(alloc, session.grid(), start, session.speed(0))?;
    for y in 0..10 {
        for x in 0..10 {
            let to = Cell { x, y };
            if moves(alloc, session, to)? != should_answer(session, has(&reached, to), to) {
                return Ok(false);
            }
        }
    }
    Ok(true)
}

/// Whether peer and plain program agree on how many turns player 0 goes on alone, and on its
/// targets.
fn agree_on(alloc: Global, session: &Session, other: Cell) -> Result<bool, AllocError> {
    session.facts();
    let alone = turns_alone(alloc, session, AT, other)?;
    let played = turns_played(alloc, session, AT)?;
    let moves = agree_on_moves(alloc, session, AT)?;
    Ok(played == alone && moves)
}

#[test]
fn peers_agree_with_the_plain_program(rt: HostRuntime) -> Result<(), Fail> {
    for setting in &SETTINGS {
        let text = text_of(rt.alloc(), setting)?;
        let session = session_of(rt.alloc(), text.as_slice())?;
        let agree = agree_on(rt.alloc(), &session, other_of(setting))?;
        assert!(rt; agree, "{}", setting.name);
    }
    Ok(())
}
