//! Letters are written.

ghost use Rattle.std.specs.Prelude.{◌≡◌, ◌+◌, ◌≤◌, ◌++◌, length, take};
ghost use Rattle.letters.specs.Spelling.{letter_bytes, greeting, frame_part};

use crate::letter::Letter;
use byte_fields::put_slice;
use commitment::put_turn;
use definitions::TurnFrame;
use wire_frames::{Frame, put_frame};

/// Writes the bytes of a frame, if there is one, from this place on, and says where they end.
fn put_part(frame: &Option<TurnFrame>, out: &mut [u8; 128], at: usize) -> usize
    requires { at ≤ 56 }
    ensures bytes { take result out.new ≡ take at out.old ++ frame_part frame.now }
    ensures count { result ≡ at + length (frame_part frame.now) }
{
    match frame {
        None => at,
        Some(frame) => {
            let mut part = [0; 64];
            let count = put_turn(frame, &mut part);
            put_slice(out, at, &part[..count]);
            at + count
        }
    }
}

/// Writes the greeting to the front, and says how many bytes it has.
fn put_greeting(letter: &Letter, out: &mut [u8; 128]) -> usize
    ensures bytes { take result out.new ≡ greeting letter.now }
    ensures count { result ≡ length (greeting letter.now) }
    ensures short { result ≤ 56 }
{
    let hello = Frame::Hello {
        id: letter.id,
        player: letter.player,
        pass: letter.pass,
        next: letter.next,
    };
    let mut part = [0; 64];
    let count = put_frame(&hello, &mut part);
    put_slice(out, 0, &part[..count]);
    count
}

/// Writes a letter's one spelling to the front of `out`, and says how many bytes it has: 56, 96,
/// 101 or 105. The bytes behind them may be anything then.
pub fn put_letter(letter: &Letter, out: &mut [u8; 128]) -> usize
    ensures bytes { take result out.new ≡ letter_bytes letter.now }
    ensures count { result ≡ length (letter_bytes letter.now) }
{
    let at = put_greeting(letter, out);
    put_part(&letter.frame, out, at)
}
