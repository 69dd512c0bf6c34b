//! Frames of each kind and their bytes, and streams that are none, as the table of the formats has
//! them.

use definitions::{Cell, Digest, Move, Nonce};
use std::test::Fail;
use wire_frames::{Fed, FedWhat, Frame, FrameReader, TurnFrame, put_frame};

/// A frame and its bytes.
struct Spelled {
    frame: Frame,
    bytes: &'static [u8],
}

static SPELLED: [Spelled; 5] = [
    Spelled {
        frame: Frame::Hello {
            id: [9; 32],
            player: 255,
            pass: [8; 16],
            next: 4_294_967_295,
        },
        bytes: &[
            1, 0, 53, 9, 9, 9, 9, 9, 9, 9, 9, 9, 9, 9, 9, 9, 9, 9, 9, 9, 9, 9, 9, 9, 9, 9, 9, 9, 9,
            9, 9, 9, 9, 9, 9, 255, 8, 8, 8, 8, 8, 8, 8, 8, 8, 8, 8, 8, 8, 8, 8, 8, 255, 255, 255,
            255,
        ],
    },
    Spelled {
        frame: Frame::Turn(TurnFrame::Commit {
            player: 3,
            turn: 9,
            digest: Digest { bytes: [6; 32] },
        }),
        bytes: &[
            2, 0, 37, 3, 0, 0, 0, 9, 6, 6, 6, 6, 6, 6, 6, 6, 6, 6, 6, 6, 6, 6, 6, 6, 6, 6, 6, 6, 6,
            6, 6, 6, 6, 6, 6, 6, 6, 6, 6, 6,
        ],
    },
    Spelled {
        frame: Frame::Turn(TurnFrame::Reveal {
            player: 3,
            turn: 9,
            mv: Move {
                to: TO,
                strike: None,
            },
            nonce: Nonce { bytes: [7; 32] },
        }),
        bytes: &[
            3, 0, 42, 3, 0, 0, 0, 9, 0, 1, 255, 255, 0, 7, 7, 7, 7, 7, 7, 7, 7, 7, 7, 7, 7, 7, 7,
            7, 7, 7, 7, 7, 7, 7, 7, 7, 7, 7, 7, 7, 7, 7, 7, 7, 7,
        ],
    },
    Spelled {
        frame: Frame::Turn(TurnFrame::Reveal {
            player: 3,
            turn: 4_294_967_295,
            mv: Move {
                to: TO,
                strike: Some(Cell { x: 256, y: 2 }),
            },
            nonce: Nonce { bytes: [7; 32] },
        }),
        bytes: &[
            3, 0, 46, 3, 255, 255, 255, 255, 0, 1, 255, 255, 1, 1, 0, 0, 2, 7, 7, 7, 7, 7, 7, 7, 7,
            7, 7, 7, 7, 7, 7, 7, 7, 7, 7, 7, 7, 7, 7, 7, 7, 7, 7, 7, 7, 7, 7, 7, 7,
        ],
    },
    Spelled {
        frame: Frame::Want { place: 65536 },
        bytes: &[4, 0, 4, 0, 1, 0, 0],
    },
];

/// Where the reveals go.
const TO: Cell = Cell { x: 1, y: 65535 };

/// Whether the frame is written as these bytes.
fn is_written(frame: &Frame, bytes: &[u8]) -> bool {
    let mut out = [0; 64];
    let count = put_frame(frame, &mut out);
    out.get(..count) == Some(bytes)
}

/// What a new reader finds in these bytes.
fn fed_with(bytes: &[u8]) -> Fed {
    let mut reader = FrameReader::new();
    reader.feed(bytes)
}

/// Whether that is this, behind so many bytes.
fn is_found(bytes: &[u8], used: usize, what: &FedWhat) -> bool {
    let fed = fed_with(bytes);
    fed.used == used && fed.what == *what
}

#[test]
fn frames_have_the_bytes_of_the_table(rt: HostRuntime) -> Result<(), Fail> {
    for (number, row) in SPELLED.iter().enumerate() {
        let whole = FedWhat::Whole(row.frame);
        assert!(rt; is_written(&row.frame, row.bytes), "{number}");
        assert!(rt; is_found(row.bytes, row.bytes.len(), &whole), "{number}");
    }
    Ok(())
}

/// Bytes that begin no frame, and the place of the first that is bad; of no bytes none is.
static OTHERS: [(&str, &[u8], usize, FedWhat); 7] = [
    ("a want of another length", &[4, 0, 5], 2, FedWhat::Bad(2)),
    ("no kind", &[5], 0, FedWhat::Bad(0)),
    ("kind 0", &[0, 0, 0], 0, FedWhat::Bad(0)),
    ("a length past a byte", &[4, 1], 1, FedWhat::Bad(1)),
    (
        "a reveal with a strike's flag and without its length",
        &[3, 0, 42, 0, 0, 0, 0, 0, 0, 0, 0, 0, 1],
        12,
        FedWhat::Bad(12),
    ),
    (
        "a reveal with a strike's length and without its flag",
        &[3, 0, 46, 0, 0, 0, 0, 0, 0, 0, 0, 0, 0],
        12,
        FedWhat::Bad(12),
    ),
    ("nothing", &[], 0, FedWhat::More),
];

#[test]
fn other_bytes_are_refused_at_their_place(rt: HostRuntime) -> Result<(), Fail> {
    for (name, bytes, used, what) in &OTHERS {
        assert!(rt; is_found(bytes, *used, what), "{name}");
    }
    Ok(())
}
