//! An opening's bytes, and the digest that a player commits to.

ghost use Rattle.std.specs.Prelude.{◌≡◌, ◌↔◌, ◌⊎◌, ◌+◌, ◌≤◌, ℕ, ◌++◌, length, take, IsTrue};
ghost use Rattle.definitions.specs.Advance as A;
ghost use Rattle.definitions.specs.Openings as O;
ghost use Rattle.definitions.specs.World.{Game};

use arrayvec::ArrayVec;
use byte_fields::put_slice;
use definitions::{Cell, Digest, Move, Opening, TurnFrame, What};
use sha2::{Digest as _, Sha256};

/// A cell's column and row, two bytes each.
#[tactic(auto, unfolding(definitions::specs::Openings::cell_bytes))]
fn spell_cell(cell: Cell) -> [u8; 4]
    ensures { result ≡ O.cell_bytes cell }
{
    let [x_high, x_low] = cell.x.to_be_bytes();
    let [y_high, y_low] = cell.y.to_be_bytes();
    [x_high, x_low, y_high, y_low]
}

/// A move's five bytes, or nine where it strikes.
#[tactic(auto, unfolding(definitions::specs::Openings::move_bytes))]
pub(crate) fn spell_move(mv: &Move) -> ArrayVec<u8, 9>
    ensures { result.items ≡ O.move_bytes mv.now }
{
    let mut bytes = ArrayVec::new();
    bytes.try_extend_from_slice(&spell_cell(mv.to)).unwrap();
    match mv.strike {
        None => bytes.push(0),
        Some(cell) => {
            bytes.push(1);
            bytes.try_extend_from_slice(&spell_cell(cell)).unwrap();
        }
    }
    bytes
}

/// An opening's 74 bytes, or 78 where its move strikes.
#[tactic(auto, unfolding(definitions::specs::Openings::opening))]
fn spell(id: &[u8; 32], opening: &Opening) -> ArrayVec<u8, 78>
    ensures { result.items ≡ O.opening id.now opening.now }
{
    let mut bytes = ArrayVec::new();
    bytes.try_extend_from_slice(id).unwrap();
    bytes.push(opening.player);
    bytes
        .try_extend_from_slice(&opening.turn.to_be_bytes())
        .unwrap();
    bytes
        .try_extend_from_slice(spell_move(&opening.mv).as_slice())
        .unwrap();
    bytes.try_extend_from_slice(&opening.nonce.bytes).unwrap();
    bytes
}

/// Writes the bytes of an opening in the session with this id to the front of `out`, and says how many there are: 74, or
/// 78 where the move strikes. The bytes of `out` behind them are left open.
pub fn opening_bytes(id: &[u8; 32], opening: &Opening, out: &mut [u8; 78]) -> usize
    ensures bytes { take result out.new ≡ O.opening id.now opening.now }
    ensures count { result ≡ length (O.opening id.now opening.now) }
{
    let bytes = spell(id, opening);
    put_slice(out, 0, bytes.as_slice());
    bytes.len()
}

/// The commitment to an opening in the session with this id: the SHA-256 digest of its bytes (FIPS 180-4).
#[tactic(auto, unfolding(definitions::specs::Openings::commitment))]
pub fn digest_of(id: &[u8; 32], opening: &Opening) -> Digest
    ensures { result ≡ O.commitment id.now opening.now }
{
    Digest {
        bytes: Sha256::digest(spell(id, opening).as_slice()),
    }
}

/// The frame of an opening in the session with this id: its commitment, by the digest of its 74 or 78 bytes, or its reveal, which
/// shows its move and nonce, and is the same in each session.
pub fn frame_of(id: &[u8; 32], what: What, opening: &Opening) -> TurnFrame
    ensures { (game : Game) → game.id ≡ id.now → result ≡ A.frame_of game what opening.now }
{
    match what {
        What::Commit => TurnFrame::Commit {
            player: opening.player,
            turn: opening.turn,
            digest: digest_of(id, opening),
        },
        What::Reveal => TurnFrame::Reveal {
            player: opening.player,
            turn: opening.turn,
            mv: opening.mv,
            nonce: opening.nonce,
        },
    }
}

/// Whether the opening, in the session with this id, is what the digest commits to.
pub fn opens(id: &[u8; 32], opening: &Opening, digest: &Digest) -> bool
    ensures { IsTrue result ↔ (digest.now ≡ O.commitment id.now opening.now) }
{
    digest_of(id, opening) == *digest
}
