//! What an entry says, as bytes.

ghost use Rattle.std.specs.Prelude.{◌≡◌, ◌+◌, ◌≤◌, length, take};
ghost use Rattle.session_log.specs.Spelling.{body_of};
ghost use Rattle.session_log.specs.Spelling as S;
ghost use Rattle.commitment.specs.Spelling.{frame_bytes};

use byte_fields::put_slice;
use commitment::put_turn;
use definitions::{Entry, Move, Nonce, PlayerId, Turn, TurnFrame};

/// The number of an entry's kind.
pub(crate) fn kind_of(entry: &Entry) -> u8
    ensures { result ≡ S.kind_of entry.now }
{
    match entry {
        Entry::Chose { .. } => 1,
        Entry::Made(_) => 2,
        Entry::Got(_, _) => 3,
    }
}

/// The reveal of a choice by player 0.
fn reveal_of(turn: Turn, mv: Move, nonce: Nonce) -> TurnFrame
    ensures { result ≡ TurnFrame.Reveal 0 turn mv nonce }
{
    TurnFrame::Reveal {
        player: 0,
        turn,
        mv,
        nonce,
    }
}

/// Nothing but the fact that no frame of a turn has more than 49 bytes.
#[tactic(auto, unfolding(commitment::specs::Spelling::frame_bytes, definitions::specs::Openings::move_bytes, definitions::specs::Openings::cell_bytes))]
fn is_short(frame: &TurnFrame)
    ensures { length (frame_bytes frame.now) ≤ 49 }
{
    match frame {
        TurnFrame::Commit { digest, .. } => {
            let bytes: &[u8] = &digest.bytes;
            let _ = bytes.len();
        }
        TurnFrame::Reveal { mv, nonce, .. } => {
            let bytes: &[u8] = &nonce.bytes;
            let _ = bytes.len();
            let _ = mv.strike.is_some();
        }
    }
}

/// Writes a frame's bytes to the front of `out`, and says how many there are.
fn spell_frame(frame: &TurnFrame, out: &mut [u8; 64]) -> usize
    ensures bytes { take result out.new ≡ frame_bytes frame.now }
    ensures count { result ≡ length (frame_bytes frame.now) }
    ensures few { result ≤ 49 }
{
    is_short(frame);
    put_turn(frame, out)
}

/// Writes the body of a choice to the front of `out`, and says how many bytes it has: a reveal says the same behind its
/// player.
#[tactic(auto, unfolding(commitment::specs::Spelling::frame_bytes, crate::specs::Spelling::body_of))]
fn spell_choice(turn: Turn, mv: Move, nonce: Nonce, out: &mut [u8; 64]) -> usize
    ensures bytes { take result out.new ≡ body_of (Entry.Chose turn mv nonce) }
    ensures count { result ≡ length (body_of (Entry.Chose turn mv nonce)) }
    ensures few { result ≤ 50 }
{
    let mut frame = [0; 64];
    let count = spell_frame(&reveal_of(turn, mv, nonce), &mut frame);
    put_slice(out, 0, &frame[4..count]);
    count - 4
}

/// Writes the body of a frame that was got to the front of `out`, and says how many bytes it has.
#[tactic(auto, unfolding(crate::specs::Spelling::body_of))]
fn spell_got(from: PlayerId, frame: &TurnFrame, out: &mut [u8; 64]) -> usize
    ensures bytes { take result out.new ≡ body_of (Entry.Got from frame.now) }
    ensures count { result ≡ length (body_of (Entry.Got from frame.now)) }
    ensures few { result ≤ 50 }
{
    let mut bytes = [0; 64];
    let count = spell_frame(frame, &mut bytes);
    out[0] = from;
    put_slice(out, 1, &bytes[..count]);
    count + 1
}

/// Writes an entry's body to the front of `out`, and says how many bytes it has.
#[tactic(auto, unfolding(crate::specs::Spelling::body_of))]
pub(crate) fn spell_body(entry: &Entry, out: &mut [u8; 64]) -> usize
    ensures bytes { take result out.new ≡ body_of entry.now }
    ensures count { result ≡ length (body_of entry.now) }
    ensures few { result ≤ 50 }
{
    match entry {
        Entry::Chose { turn, mv, nonce } => spell_choice(*turn, *mv, *nonce, out),
        Entry::Made(frame) => spell_frame(frame, out),
        Entry::Got(from, frame) => spell_got(*from, frame, out),
    }
}
