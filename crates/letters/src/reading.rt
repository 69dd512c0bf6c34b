//! Letters are read.

ghost use Rattle.std.specs.Prelude.{◌≡◌};
ghost use Rattle.letters.specs.Reading.{letter_in, letter_of, frame_behind};

use crate::letter::Letter;
use commitment::whole_turn;
use wire_frames::{FedWhat, Frame, FrameReader};

/// The greeting that was found, as a letter without a frame.
fn greeting_of(what: &FedWhat) -> Option<Letter>
    ensures { result ≡ letter_of what.now }
{
    match *what {
        FedWhat::Whole(
            Frame::Hello {
                id,
                player,
                pass,
                next,
            },
        ) => Some(Letter {
            id,
            player,
            pass,
            next,
            frame: None,
        }),
        _ => None,
    }
}

/// The letter with the frame that the bytes spell behind its greeting.
fn with_frame(letter: Letter, rest: &[u8]) -> Option<Letter>
    ensures { result ≡ frame_behind letter rest.now }
{
    if rest.is_empty() {
        return Some(letter);
    }
    let frame = whole_turn(rest)?;
    if frame.player() != letter.player {
        return None;
    }
    Some(Letter {
        frame: Some(frame),
        ..letter
    })
}

/// The letter that the bytes of a datagram spell, if they spell one: `None` where the first frame
/// in them is no greeting, or where anything but one frame of its player stands behind it.
pub fn read_letter(bytes: &[u8]) -> Option<Letter>
    ensures exact { result ≡ letter_in bytes.now }
{
    let mut reader = FrameReader::new();
    let fed = reader.feed(bytes);
    let letter = greeting_of(&fed.what)?;
    with_frame(letter, &bytes[fed.used..])
}
