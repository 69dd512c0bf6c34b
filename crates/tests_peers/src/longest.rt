//! The longest matches that a session can be, by one peer, and their logs, which are read again.

use crate::frames::put_entry;
use crate::sessions::session_of;
use commitment::digest_of;
use definitions::{
    Cell, GotAnswer, Move, Nonce, Opening, Place, PlayerId, Progress, Slot, Turn, TurnFrame, What,
};
use grid_world::Session;
use itoa::Buffer;
use log_files::{LogText, audit};
use old_log::resume_from;
use peer_core::Peer;
use session_log::LogWriter;
use std::alloc::{AllocError, Global};
use std::test::Fail;

/// A match of this many turns and players, all of whom stand on one cell, so that everyone waits
/// for everyone.
struct Crowd {
    // what stands before the line of the players
    head: &'static [u8],
    turns: Turn,
    players: PlayerId,
}

static CROWDS: [Crowd; 3] = [
    Crowd {
        head: b"playout 1\ngrid 1 1\nrules 1 0 0\ncharge 0 0 0\nturns 4096\n",
        turns: 4096,
        players: 16,
    },
    Crowd {
        head: b"playout 2\ngrid 1 1\nrules 1 0 0\ncharge 0 0 0\nturns 8192\nahead 1\n",
        turns: 8192,
        players: 48,
    },
    Crowd {
        head: b"playout 2\ngrid 1 1\nrules 1 0 0\ncharge 0 0 0\nturns 6144\nahead 8\n",
        turns: 6144,
        players: 64,
    },
];

/// Everyone stays on the only cell.
const STAYS: Move = Move {
    to: Cell { x: 0, y: 0 },
    strike: None,
};

/// Adds a text at the end.
fn add(text: &mut Vec<u8>, part: &[u8]) -> Result<(), AllocError> {
    for byte in part {
        text.push(*byte)?;
    }
    Ok(())
}

/// The session's text.
fn text_of(alloc: Global, crowd: &Crowd) -> Result<Vec<u8>, AllocError> {
    let mut text = Vec::from_slice(alloc, crowd.head)?;
    add(&mut text, b"players ")?;
    add(&mut text, Buffer::new().format(crowd.players).as_bytes())?;
    for player in 0..crowd.players {
        add(&mut text, b"\nplayer ")?;
        add(&mut text, Buffer::new().format(player).as_bytes())?;
        add(&mut text, b" 0 0")?;
    }
    add(&mut text, b"\nend\n")?;
    Ok(text)
}

/// The nonce of a player's turn.
fn nonce_of(player: PlayerId, turn: Turn) -> Nonce {
    let mut bytes = [player; 32];
    bytes[0] = (turn % 256) as u8;
    bytes[1] = (turn / 256 % 256) as u8;
    Nonce { bytes }
}

/// A player's commitment of a turn.
fn commit(session: &Session, player: PlayerId, turn: Turn) -> TurnFrame {
    let opening = Opening {
        player,
        turn,
        mv: STAYS,
        nonce: nonce_of(player, turn),
    };
    TurnFrame::Commit {
        player,
        turn,
        digest: digest_of(session.id(), &opening),
    }
}

/// A player's reveal of a turn.
fn reveal(player: PlayerId, turn: Turn) -> TurnFrame {
    TurnFrame::Reveal {
        player,
        turn,
        mv: STAYS,
        nonce: nonce_of(player, turn),
    }
}

/// The player's frame of a slot.
fn frame_of(session: &Session, player: PlayerId, slot: Slot) -> TurnFrame {
    match slot.what {
        What::Commit => commit(session, player, slot.turn),
        What::Reveal => reveal(player, slot.turn),
    }
}

/// Whether the peer takes the frames of all others at a place as the next ones of their streams.
fn takes(peer: &mut Peer, session: &Session, slot: Slot) -> bool {
    for player in 1..session.players() {
        let frame = frame_of(session, player, slot);
        if peer.got(player, &frame) != GotAnswer::Taken {
            return false;
        }
    }
    true
}

/// Makes what the peer may make now; a move is chosen where one may be. Says whether the own frame
/// of the place is made then.
fn makes(peer: &mut Peer, place: Place) -> bool {
    let choice = peer.choice();
    // a refusal changes nothing
    let _ = peer.choose(STAYS, nonce_of(0, choice.turn));
    peer.advance();
    peer.made_count() > place
}

/// Whether a place of all players goes as the protocol says: the own frame is made, and those of
/// all others are taken.
fn plays(peer: &mut Peer, session: &Session, place: Place) -> bool {
    match session.slot_at(place) {
        None => false,
        Some(slot) => makes(peer, place) && takes(peer, session, slot),
    }
}

/// Whether a match goes as the protocol says, place by place.
fn plays_all(peer: &mut Peer, session: &Session) -> bool {
    for place in 0..2 * session.turns() {
        if !plays(peer, session, place) {
            return false;
        }
    }
    true
}

/// Whether the peer shows all turns of all players.
fn shows_all(peer: &Peer) -> bool {
    let turns = peer.session().turns();
    for player in 0..peer.session().players() {
        let view = peer.player(player);
        if view.turns != turns || view.next != 2 * turns {
            return false;
        }
    }
    true
}

/// What a match came to.
#[derive(Clone, Copy, PartialEq, Eq)]
struct Came {
    // how many others are waited for behind the first own frame of all that they were to answer
    waits: usize,
    played: bool,
    last: Progress,
    needs: usize,
    made: u32,
    shown: bool,
    entries: usize,
    // whether a peer goes on from the log, and an audit of it agrees on all turns
    resumed: bool,
    agreed: bool,
}

/// The bytes of the peer's log.
fn log_of(alloc: Global, peer: &Peer) -> Result<Vec<u8>, AllocError> {
    let mut writer = LogWriter::new(peer.session(), peer.me());
    let mut log = Vec::new(alloc);
    for entry in peer.entries() {
        put_entry(&mut log, &mut writer, entry)?;
    }
    Ok(log)
}

/// Whether a peer goes on from this log of player 0 with all its entries.
fn goes_on(alloc: Global, session: &Session, log: &[u8], peer: &Peer) -> bool {
    session.facts();
    match resume_from(alloc, session, 0, log) {
        Err(_) => false,
        Ok(resumed) => resumed.dropped.is_none() && resumed.peer.entries() == peer.entries(),
    }
}

/// Whether the log alone shows all turns of all players.
fn agrees(alloc: Global, session: &Session, log: Vec<u8>) -> bool {
    let logs = [LogText::new(log)];
    let Ok(report) = audit(alloc, session, &logs) else {
        return false;
    };
    for player in 0..session.players() {
        if report.agreed(player) != session.turns() {
            return false;
        }
    }
    report.findings().is_empty()
}

/// What a match of all turns comes to.
fn outcome_of(alloc: Global, peer: &mut Peer, session: &Session) -> Result<Came, AllocError> {
    for turn in 0..session.ahead() {
        // a refusal changes nothing
        let _ = peer.choose(STAYS, nonce_of(0, turn));
        peer.advance();
    }
    let waits = peer.needs().as_slice().len();
    let played = plays_all(peer, session);
    let last = peer.advance();
    let needs = peer.needs().as_slice().len();
    let shown = shows_all(peer);
    let log = log_of(alloc, peer)?;
    let resumed = goes_on(alloc, session, &log, peer);
    let agreed = agrees(alloc, session, log);
    Ok(Came {
        waits,
        played,
        last,
        needs,
        made: peer.made_count(),
        shown,
        entries: peer.entries().len(),
        resumed,
        agreed,
    })
}

/// What a match of all turns comes to, by player 0.
fn outcome(alloc: Global, session: &Session) -> Result<Came, AllocError> {
    session.facts();
    let mut peer = Peer::new(alloc, session, 0)?;
    outcome_of(alloc, &mut peer, session)
}

/// What it should come to: a choice and two frames made a turn, and two frames got from each other
/// player.
fn wanted(crowd: &Crowd) -> Came {
    let turns = crowd.turns as usize;
    let others = usize::from(crowd.players).wrapping_sub(1);
    let made = turns.wrapping_mul(2);
    Came {
        waits: others,
        played: true,
        last: Progress::Done,
        needs: 0,
        made: crowd.turns.wrapping_mul(2),
        shown: true,
        entries: turns
            .wrapping_add(made)
            .wrapping_add(made.wrapping_mul(others)),
        resumed: true,
        agreed: true,
    }
}

/// At each call a peer looks at the frames of a turn, and never at its whole log: one look at that
/// in each call would be more than a hundred thousand million entries here.
#[test]
fn the_longest_matches_end(rt: HostRuntime) -> Result<(), Fail> {
    for crowd in &CROWDS {
        let text = text_of(rt.alloc(), crowd)?;
        let session = session_of(rt.alloc(), text.as_slice())?;
        let came = outcome(rt.alloc(), &session)?;
        assert!(rt; came == wanted(crowd), "{}", crowd.turns);
    }
    Ok(())
}
