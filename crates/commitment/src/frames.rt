//! The frames of a turn as bytes: a kind byte, the payload's length in two bytes, and the payload.

ghost use Rattle.std.specs.Prelude.{◌≡◌, ◌≤◌, ◌+◌, ◌<◌, ℕ, length, take, slice_index, slice_range, IfSome, IfNone};
ghost use Rattle.commitment.specs.Spelling.{frame_bytes, turn_frame_of, FitsFrame};
ghost use Rattle.commitment.specs.Spelling as S;
ghost use Rattle.definitions.specs.declared.frames.TurnFrame.{TurnFrame};

use crate::openings::spell_move;
use arrayvec::ArrayVec;
use byte_fields::{array_at, put_slice, take_u16, take_u32};
use definitions::{Cell, Digest, Move, Nonce, TurnFrame};

/// A frame's 40, 45 or 49 bytes.
#[tactic(auto, unfolding(crate::specs::Spelling::frame_bytes))]
fn spell(frame: &TurnFrame) -> ArrayVec<u8, 64>
    ensures { result.items ≡ frame_bytes frame.now }
{
    let mut bytes = ArrayVec::new();
    match frame {
        TurnFrame::Commit {
            player,
            turn,
            digest,
        } => {
            bytes.try_extend_from_slice(&[2, 0, 37, *player]).unwrap();
            bytes.try_extend_from_slice(&turn.to_be_bytes()).unwrap();
            bytes.try_extend_from_slice(&digest.bytes).unwrap();
        }
        TurnFrame::Reveal {
            player,
            turn,
            mv,
            nonce,
        } => {
            let length = if mv.strike.is_some() { 46 } else { 42 };
            bytes
                .try_extend_from_slice(&[3, 0, length, *player])
                .unwrap();
            bytes.try_extend_from_slice(&turn.to_be_bytes()).unwrap();
            bytes
                .try_extend_from_slice(spell_move(mv).as_slice())
                .unwrap();
            bytes.try_extend_from_slice(&nonce.bytes).unwrap();
        }
    }
    bytes
}

/// Writes the one spelling of a frame to the front of `out`, and says how many bytes it has: 40 for a commitment, 45 for
/// a reveal, 49 for a reveal of a move that strikes. The bytes of `out` behind them are left open.
pub fn put_turn(frame: &TurnFrame, out: &mut [u8; 64]) -> usize
    ensures bytes { take result out.new ≡ frame_bytes frame.now }
    ensures count { result ≡ length (frame_bytes frame.now) }
{
    let bytes = spell(frame);
    put_slice(out, 0, bytes.as_slice());
    bytes.len()
}

/// The two bytes from this one on as a number.
fn short_at(bytes: &[u8], at: usize) -> u16
    requires { at + 1 < length bytes.now }
    ensures { result ≡ S.short_at bytes.now at }
{
    take_u16(bytes, at).unwrap()
}

/// The four bytes from this one on as a cell.
fn cell_at(bytes: &[u8], at: usize) -> Cell
    requires { at + 3 < length bytes.now }
    ensures { result ≡ S.cell_at bytes.now at }
{
    Cell {
        x: short_at(bytes, at),
        y: short_at(bytes, at + 2),
    }
}

/// The turn of a frame.
fn turn_at(bytes: &[u8]) -> u32
    requires { 7 < length bytes.now }
    ensures { result ≡ S.turn_at bytes.now }
{
    take_u32(bytes, 4).unwrap()
}

/// Whether the bytes are the spelling of a frame of this kind as far as its first three bytes tell: the kind, and a payload as
/// long as its length says.
pub fn has_head(kind: u8, payload: u8, bytes: &[u8]) -> bool
    ensures { result ≡ S.has_head kind payload bytes.now }
{
    bytes.len() == usize::from(payload) + 3
        && bytes[0] == kind
        && bytes[1] == 0
        && bytes[2] == payload
}

/// The reveal with this move, of which the nonce begins at this byte.
fn reveal_at(bytes: &[u8], mv: Move, at: usize) -> TurnFrame
    requires header { 7 < length bytes.now }
    requires nonce { at + 32 ≤ length bytes.now }
    ensures { result ≡ TurnFrame.Reveal (slice_index bytes.now 3) (S.turn_at bytes.now) mv (record { bytes = slice_range bytes.now at (at + 32) }) }
{
    TurnFrame::Reveal {
        player: bytes[3],
        turn: turn_at(bytes),
        mv,
        nonce: Nonce {
            bytes: array_at(bytes, at),
        },
    }
}

/// The frame that the bytes spell.
#[tactic(auto, unfolding(crate::specs::Spelling::turn_frame_of))]
#[inline(always)]
fn read_turn(bytes: &[u8]) -> Option<TurnFrame>
    ensures { result ≡ turn_frame_of bytes.now }
{
    if has_head(2, 37, bytes) {
        Some(TurnFrame::Commit {
            player: bytes[3],
            turn: turn_at(bytes),
            digest: Digest {
                bytes: array_at(bytes, 8),
            },
        })
    } else if has_head(3, 42, bytes) && bytes[12] == 0 {
        let mv = Move {
            to: cell_at(bytes, 8),
            strike: None,
        };
        Some(reveal_at(bytes, mv, 13))
    } else if has_head(3, 46, bytes) && bytes[12] == 1 {
        let mv = Move {
            to: cell_at(bytes, 8),
            strike: Some(cell_at(bytes, 13)),
        };
        Some(reveal_at(bytes, mv, 17))
    } else {
        None
    }
}

/// The commitment or reveal that the bytes spell, whole and with nothing behind it. None comes exactly where they are the
/// spelling of neither. Whether the session has such a player or turn is not asked here. It is inlined, so that a frame is written to
/// where it is wanted: each entry of each log of an audit is read by it.
#[inline(always)]
pub fn whole_turn(bytes: &[u8]) -> Option<TurnFrame>
    ensures exact { result ≡ turn_frame_of bytes.now }
    ensures found { IfSome result (λ f. frame_bytes f ≡ bytes.now) }
    ensures none { IfNone result ((f : TurnFrame) → FitsFrame f → bytes.now ≡ frame_bytes f → ⊥) }
{
    read_turn(bytes)
}
