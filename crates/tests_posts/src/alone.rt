//! A player of whom nobody is heard: what it sends, by values that were worked out by hand.

use crate::grounds::{FAR, OF_TWO, STAYS, script_of, session_of};
use crate::sides::Side;
use datagram_loop::Ended;
use std::test::Fail;

/// The greeting of player 0 to player 1 in the session `FAR`: its kind and length, the session's
/// id, the player, the pass and the place 0. The id is the SHA-256 digest of the text by Python's
/// hashlib.
const GREETING: [u8; 56] = [
    1, 0, 53, 219, 17, 16, 5, 138, 56, 192, 192, 57, 180, 224, 130, 58, 134, 75, 133, 169, 255,
    103, 224, 78, 97, 100, 24, 74, 104, 43, 92, 188, 65, 94, 100, 0, 1, 1, 1, 1, 1, 1, 1, 1, 1, 1,
    1, 1, 1, 1, 1, 1, 0, 0, 0, 0,
];

/// Whether the datagram of this number is the greeting and a frame, of so many bytes together.
fn goes_so(side: &Side, index: u32, len: usize) -> bool {
    match side.sent_at(index) {
        None => false,
        Some(sent) => match sent.bytes.get(..56) {
            None => false,
            Some(front) => {
                sent.port == 7001 && sent.bytes.len() == len && front == GREETING.as_slice()
            }
        },
    }
}

/// Whether four batches of a commitment, a reveal, a commitment and a reveal went to player 1.
fn goes_on(side: &Side) -> bool {
    for index in 0..16u32 {
        let len = if index % 2 == 0 { 96 } else { 101 };
        if !goes_so(side, index, len) {
            return false;
        }
    }
    side.sent() == 16
}

/// Whether the log has six choices of 76 bytes, six commitments of 75 and five reveals of 80 behind
/// the byte of its owner: the sixth reveal waits for the other player's commitment.
fn has_log(side: &Side) -> bool {
    side.it().peer().made_count() == 11
        && side.it().asked(1) == 0
        && side.post().kept().len() == 1307
        // a log and an address, 17 keeps and a sync, three polls, and in each of four settlings a
        // receive and four sends
        && side.post().items() == 43
}

#[test]
fn a_player_alone_gives_up(rt: HostRuntime) -> Result<(), Fail> {
    let alloc = rt.alloc();
    let session = session_of(alloc, FAR)?;
    let mut pilot = script_of(alloc, STAYS, &session)?;
    let mut side = Side::new(alloc, &session, 0, OF_TWO[0], None)?;
    side.play(&mut pilot, 3);
    assert!(rt; side.ended() == Some(Ended::GaveUp));
    let goes_on = goes_on(&side);
    assert!(rt; goes_on);
    let has_log = has_log(&side);
    assert!(rt; has_log);
    Ok(())
}
