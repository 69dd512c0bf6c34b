//! The longest evidence texts: as many frames as one may have, which are read back, and one more,
//! at whose line the text is at fault.

use definitions::{Cell, Digest, Move, Nonce};
use evidence::{Exhibit, FrameList, Kind, TextFault, TurnFrame, print_exhibit, read_exhibit};
use std::alloc::Global;
use std::test::Fail;

/// A move with a strike.
const MOVE: Move = Move {
    to: Cell { x: 1023, y: 7 },
    strike: Some(Cell { x: 1016, y: 0 }),
};

/// The commitment of a turn.
fn commit_of(turn: u32) -> TurnFrame {
    let byte = (turn % 256) as u8;
    TurnFrame::Commit {
        player: 63,
        turn,
        digest: Digest { bytes: [byte; 32] },
    }
}

/// The reveal of a turn.
fn reveal_of(turn: u32) -> TurnFrame {
    let byte = (turn % 256) as u8;
    TurnFrame::Reveal {
        player: 63,
        turn,
        mv: MOVE,
        nonce: Nonce { bytes: [byte; 32] },
    }
}

/// The frames of so many turns.
fn frames_of(alloc: Global, turns: u32) -> Result<Vec<TurnFrame>, Fail> {
    let mut frames = Vec::new(alloc);
    for turn in 0..turns {
        frames.push(commit_of(turn))?;
        frames.push(reveal_of(turn))?;
    }
    Ok(frames)
}

/// An exhibit of these frames.
fn exhibit_of(frames: Vec<TurnFrame>) -> Exhibit {
    Exhibit {
        player: 63,
        turn: 8191,
        kind: Kind::Illegal,
        frames: FrameList::new(frames),
    }
}

/// Whether two exhibits are the same.
fn are_alike(one: &Exhibit, other: &Exhibit) -> bool {
    one.player == other.player
        && one.turn == other.turn
        && one.kind == other.kind
        && one.frames.as_slice() == other.frames.as_slice()
}

/// Whether the text is that of the exhibit.
fn is_text_of(alloc: Global, text: &[u8], exhibit: &Exhibit) -> bool {
    match read_exhibit(alloc, text) {
        Err(_) => false,
        Ok(read) => are_alike(&read, exhibit),
    }
}

/// Whether the exhibit of so many turns is read back from its text.
fn is_read_back(alloc: Global, turns: u32) -> Result<bool, Fail> {
    let frames = frames_of(alloc, turns)?;
    let exhibit = exhibit_of(frames);
    let text = print_exhibit(alloc, &exhibit)?;
    Ok(is_text_of(alloc, text.as_slice(), &exhibit))
}

#[test]
fn long_texts_are_read_back(rt: HostRuntime) -> Result<(), Fail> {
    for turns in [4097, 8192] {
        let is_read_back = is_read_back(rt.alloc(), turns)?;
        assert!(rt; is_read_back, "{turns}");
    }
    Ok(())
}

#[test]
fn a_frame_too_many_is_at_fault(rt: HostRuntime) -> Result<(), Fail> {
    let mut frames = frames_of(rt.alloc(), 8192)?;
    frames.push(commit_of(8192))?;
    let exhibit = exhibit_of(frames);
    let text = print_exhibit(rt.alloc(), &exhibit)?;
    let fault = read_exhibit(rt.alloc(), text.as_slice()).err();
    assert_eq!(rt; fault, Some(TextFault::At(16_389)));
    Ok(())
}
