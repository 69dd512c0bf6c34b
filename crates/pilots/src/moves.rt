//! Moves as lines of a text.

ghost use Rattle.std.specs.Prelude.{◌≡◌, ◌++◌, ◌≤◌, map, IfOk, OnOk};
ghost use Rattle.definitions.specs.declared.limits.TheConstants.{MOST_TURNS};
ghost use Rattle.text_lines.specs.Lines.{ended_lines_of, joined};
ghost use Rattle.text_lines.specs.Reading.{line_at};
ghost use Rattle.text_lines.specs.Answers.{Gives, Says};
ghost use Rattle.text_fields.specs.declared.fault.TextFault.TheVariants.{At};
ghost use Rattle.text_fields.specs.Faults.{is_memory};
ghost use Rattle.pilots.specs.Scripts as S;
ghost use Rattle.pilots.specs.Scripts.{move_line, move_said, moves_text, script_at};

use byte_fields::take_number;
use definitions::limits::MOST_TURNS;
use definitions::{Cell, Move};
use std::alloc::{AllocError, Global};
use text_fields::TextFault;
use text_lines::{one_of, put_line, take_line, three_of};

/// The cell of these numbers, where they fit two bytes.
fn cell_of(x: u32, y: u32) -> Option<Cell>
    ensures { result ≡ S.cell_of x y }
{
    if x <= 65535 && y <= 65535 {
        Some(Cell {
            x: x as u16,
            y: y as u16,
        })
    } else {
        None
    }
}

/// The move of a number and of the one number, or the three, that stand behind it.
fn move_of(x: u32, one: Option<u32>, three: Option<(u32, u32, u32)>) -> Option<Move>
    ensures { result ≡ S.move_of x one three }
{
    if let Some(y) = one {
        let to = cell_of(x, y)?;
        return Some(Move { to, strike: None });
    }
    let (y, strike_x, strike_y) = three?;
    let to = cell_of(x, y)?;
    let strike = cell_of(strike_x, strike_y)?;
    Some(Move {
        to,
        strike: Some(strike),
    })
}

/// The move that a line says.
#[tactic(auto, unfolding(crate::specs::Scripts::move_said))]
fn read_move(line: &[u8]) -> Option<Move>
    ensures { result ≡ move_said line.now }
{
    let first = take_number(line, 0)?;
    let digits = &line[..first.end];
    move_of(first.value, one_of(digits, line), three_of(digits, line))
}

/// The move that line `n` says, and the text behind the line.
fn move_at(n: u32, text: &[u8]) -> Result<(Move, &[u8]), TextFault>
    ensures { Says (λ x. (x.0, ended_lines_of x.1.now)) result (line_at (At n) move_said (ended_lines_of text.now)) }
{
    let (line, rest) = take_line(text);
    match read_move(line) {
        None => Err(TextFault::At(n)),
        Some(mv) => Ok((mv, rest)),
    }
}

/// The moves that a text says, one for each turn.
pub(crate) fn moves_of(alloc: Global, turns: u32, text: &[u8]) -> Result<Vec<Move>, TextFault>
    requires { turns ≤ MOST_TURNS }
    ensures { Gives is_memory (λ v. v.items) result (script_at turns text.now) }
{
    let mut moves = Vec::new(alloc);
    let mut rest = text;
    for turn in 0..turns {
        let (mv, after) = move_at(turn + 1, rest)?;
        moves.push(mv)?;
        rest = after;
    }
    if !rest.is_empty() {
        return Err(TextFault::At(turns + 1));
    }
    Ok(moves)
}

/// Writes the move's line.
fn put_move(alloc: Global, out: &mut Vec<u8>, mv: &Move) -> Result<(), AllocError>
    ensures { OnOk result (out.new.items ≡ out.old.items ++ move_line mv.now) }
{
    let x = u32::from(mv.to.x);
    let y = u32::from(mv.to.y);
    let digits = format!(in alloc; "{x}")?;
    match mv.strike {
        None => put_line(alloc, out, digits.as_bytes(), &[y]),
        Some(at) => {
            let numbers = [y, u32::from(at.x), u32::from(at.y)];
            put_line(alloc, out, digits.as_bytes(), &numbers)
        }
    }
}

/// The one text of these moves. An error comes only where memory runs out.
#[tactic(auto, unfolding(crate::specs::Scripts::moves_text))]
pub fn print_moves(alloc: Global, moves: &[Move]) -> Result<Vec<u8>, AllocError>
    ensures { IfOk result (λ text. text.items ≡ moves_text moves.now) }
{
    let mut out = Vec::new(alloc);
    for mv in moves {
        put_move(alloc, &mut out, mv)?;
    }
    Ok(out)
}
