//! Sessions, rosters and moves, as texts.

use grid_world::{Session, read_session};
use pilots::ScriptPilot;
use std::alloc::Global;
use std::test::Fail;

/// Two players nine cells apart, who can't meet before five turns are missed.
pub const FAR: &[u8] =
    b"playout 1\ngrid 12 1\nrules 1 1 0\ncharge 1 2 1\nturns 8\nplayers 2\nplayer 0 0 0\nplayer 1 9 0\nend\n";

/// Two players four cells apart, who can meet at once.
pub const NEAR: &[u8] =
    b"playout 1\ngrid 12 1\nrules 1 1 0\ncharge 1 2 1\nturns 8\nplayers 2\nplayer 0 0 0\nplayer 1 4 0\nend\n";

/// Three players in the corners of a small grid with a wall.
pub const THREE: &[u8] =
    b"playout 1\ngrid 9 9\nrules 2 2 1\ncharge 1 4 2\nturns 12\nplayers 3\nplayer 0 1 1\nplayer 1 7 1\nplayer 2 4 7\nwall 4 3\nwall 4 4\nend\n";

/// Eight turns at the start of player 0.
pub const STAYS: &[u8] = b"0 0\n0 0\n0 0\n0 0\n0 0\n0 0\n0 0\n0 0\n";

/// The rosters of two players, that of player 0 first: player Q listens at port 7000 + Q, and the
/// pass that P shows Q has the digits P and Q.
pub const OF_TWO: [&[u8]; 2] = [
    b"roster 1\nme 127.0.0.1 7000\n\
    peer 1 127.0.0.1 7001 01010101010101010101010101010101 \
    10101010101010101010101010101010\n\
    end\n",
    b"roster 1\nme 127.0.0.1 7001\n\
    peer 0 127.0.0.1 7000 10101010101010101010101010101010 \
    01010101010101010101010101010101\n\
    end\n",
];

/// The rosters of three players.
pub const OF_THREE: [&[u8]; 3] = [
    b"roster 1\nme 127.0.0.1 7000\n\
    peer 1 127.0.0.1 7001 01010101010101010101010101010101 \
    10101010101010101010101010101010\n\
    peer 2 127.0.0.1 7002 02020202020202020202020202020202 \
    20202020202020202020202020202020\n\
    end\n",
    b"roster 1\nme 127.0.0.1 7001\n\
    peer 0 127.0.0.1 7000 10101010101010101010101010101010 \
    01010101010101010101010101010101\n\
    peer 2 127.0.0.1 7002 12121212121212121212121212121212 \
    21212121212121212121212121212121\n\
    end\n",
    b"roster 1\nme 127.0.0.1 7002\n\
    peer 0 127.0.0.1 7000 20202020202020202020202020202020 \
    02020202020202020202020202020202\n\
    peer 1 127.0.0.1 7001 21212121212121212121212121212121 \
    12121212121212121212121212121212\n\
    end\n",
];

pub fn session_of(alloc: Global, text: &[u8]) -> Result<Session, Fail> {
    match read_session(alloc, text) {
        Ok(session) => Ok(session),
        Err(_) => Err("session".into()),
    }
}

pub fn script_of(alloc: Global, text: &[u8], session: &Session) -> Result<ScriptPilot, Fail> {
    match ScriptPilot::read(alloc, text, session) {
        Ok(pilot) => Ok(pilot),
        Err(_) => Err("moves".into()),
    }
}
