//! Cells in a line.

ghost use Rattle.std.specs.Prelude.{◌≡◌, ◌≤◌, option_map, length, IfSome};
ghost use Rattle.text_fields.specs.Cells as C;

use crate::numbers::number_then;
use definitions::Cell;

/// The column and the row of a cell at the front of the text, each before a space, and what stands behind them. None comes
/// exactly where no such cell stands there.
#[tactic(auto, unfolding(crate::specs::Cells::cell_then))]
pub fn cell_then(text: &[u8]) -> Option<(Cell, &[u8])>
    ensures value { option_map (λ c. (c.0, c.1.now)) result ≡ C.cell_then text.now }
    ensures short { IfSome result (λ c. length c.1.now ≤ length text.now) }
{
    let (x, rest) = number_then(65535, text)?;
    let (y, rest) = number_then(65535, rest)?;
    let cell = Cell {
        x: x as u16,
        y: y as u16,
    };
    Some((cell, rest))
}
