//! A choice at the end of a line: a move and its nonce.

ghost use Rattle.std.specs.Prelude.{◌≡◌};
ghost use Rattle.text_fields.specs.Choices as C;

use crate::cells::cell_then;
use crate::hexes::read_nonce;
use definitions::{Move, Nonce};

/// A move that does not strike, and its nonce.
#[tactic(auto, unfolding(crate::specs::Choices::step_of))]
fn read_step(text: &[u8]) -> Option<(Move, Nonce)>
    ensures { result ≡ C.step_of text.now }
{
    let (to, rest) = cell_then(text)?;
    let nonce = read_nonce(rest)?;
    Some((Move { to, strike: None }, nonce))
}

/// A move that strikes, and its nonce.
#[tactic(auto, unfolding(crate::specs::Choices::strike_of))]
fn read_strike(text: &[u8]) -> Option<(Move, Nonce)>
    ensures { result ≡ C.strike_of text.now }
{
    let (to, rest) = cell_then(text)?;
    let (at, rest) = cell_then(rest)?;
    let nonce = read_nonce(rest)?;
    let strike = Some(at);
    Some((Move { to, strike }, nonce))
}

/// The move and the nonce that the text spells, up to its end: the cell walked to, perhaps the cell struck, and the
/// nonce's digits. None comes exactly where it spells none.
#[tactic(auto, unfolding(crate::specs::Choices::move_then_nonce))]
pub fn move_then_nonce(text: &[u8]) -> Option<(Move, Nonce)>
    ensures { result ≡ C.move_then_nonce text.now }
{
    match read_step(text) {
        Some(step) => Some(step),
        None => read_strike(text),
    }
}
