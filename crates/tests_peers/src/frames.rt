//! Frames of a player who comes to a cell of the first row, and logs that got them.

ghost use Rattle.std.specs.Prelude.{◌≤◌, length};

use commitment::frame_of;
use definitions::{Cell, Entry, Move, Nonce, Opening, PlayerId, Turn, TurnFrame, What};
use grid_world::{Session, read_session};
use session_log::LogWriter;
use std::alloc::{AllocError, Global};
use std::test::Fail;

/// The session of a text.
pub fn session_of(alloc: Global, text: &[u8]) -> Result<Session, Fail> {
    match read_session(alloc, text) {
        Err(_) => Err("refused".into()),
        Ok(session) => Ok(session),
    }
}

/// The opening of a player who comes to the column of the first row, with a nonce of equal bytes.
pub fn goes(player: PlayerId, turn: Turn, x: u16, byte: u8) -> Opening {
    let to = Cell { x, y: 0 };
    let mv = Move { to, strike: None };
    let nonce = Nonce { bytes: [byte; 32] };
    Opening {
        player,
        turn,
        mv,
        nonce,
    }
}

/// The commitment to the opening.
pub fn commit(session: &Session, opening: &Opening) -> TurnFrame {
    frame_of(session.id(), What::Commit, opening)
}

/// The reveal of the opening.
pub fn reveal(session: &Session, opening: &Opening) -> TurnFrame {
    frame_of(session.id(), What::Reveal, opening)
}

/// The first bytes, as many as are asked for and are there.
pub fn front(bytes: &[u8], count: usize) -> &[u8]
    ensures { length result.now ≤ count }
{
    &bytes[..count.min(bytes.len())]
}

/// Puts the entry's bytes behind those of the log.
pub fn put_entry(
    log: &mut Vec<u8>,
    writer: &mut LogWriter,
    entry: &Entry,
) -> Result<(), AllocError> {
    let mut out = [0; 96];
    let count = writer.put(entry, &mut out);
    log.extend_from_slice(front(&out, count))
}

/// The log got the opening's commitment and its reveal.
pub fn put_turn(
    log: &mut Vec<u8>,
    writer: &mut LogWriter,
    session: &Session,
    opening: &Opening,
) -> Result<(), AllocError> {
    let commitment = Entry::Got(opening.player, commit(session, opening));
    put_entry(log, writer, &commitment)?;
    let revealed = Entry::Got(opening.player, reveal(session, opening));
    put_entry(log, writer, &revealed)
}
