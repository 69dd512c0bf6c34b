//! How many polls a run is granted, and the line that tells that all were made.

ghost use Rattle.std.specs.Prelude.{◌≡◌, ◌≤◌, IfSome};
ghost use Rattle.run_frame.specs.Polls.{gave_up_text, polls_granted};

use arrayvec::ArrayVec;
use itoa::Buffer;
use text_fields::read_number;

/// The most polls that a run may be granted.
pub const MOST_POLLS: u32 = 10_000_000;

/// Room for the line that tells that all polls were made, which has at most 17 bytes.
pub const GAVE_UP_ROOM: usize = 32;

/// How many polls the word grants: from 1 to [`MOST_POLLS`].
pub fn read_polls(word: &[u8]) -> Option<u32>
    ensures value { result ≡ polls_granted word.now }
    ensures few { IfSome result (λ n. n ≤ MOST_POLLS) }
{
    let polls = read_number(MOST_POLLS, word)?;
    if polls >= 1 { Some(polls) } else { None }
}

/// What is written where all polls were made.
#[tactic(auto, unfolding(crate::specs::Polls::gave_up_text))]
pub fn gave_up_line(polls: u32) -> ArrayVec<u8, GAVE_UP_ROOM>
    ensures { result.items ≡ gave_up_text polls }
{
    let mut line = ArrayVec::new();
    line.try_extend_from_slice(b"gave up ").unwrap();
    line.try_extend_from_slice(Buffer::new().format(polls).as_bytes())
        .unwrap();
    line.push(b'\n');
    line
}
