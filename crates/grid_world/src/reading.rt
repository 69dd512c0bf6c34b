//! A session is read from its text.

ghost use Rattle.std.specs.Prelude.{◌≡◌, ◌≤◌, Some, None, if◌then◌else◌, IfOk};
ghost use Rattle.definitions.specs.World.{has_cell, is_inside};
ghost use Rattle.text_lines.specs.Lines.{ended_lines_of};
ghost use Rattle.text_lines.specs.Answers.{Faults, Gives, IsRead, Says};
ghost use Rattle.grid_world.specs.Reading as spec;
ghost use Rattle.grid_world.specs.Reading.{head_at, seat_at, seats_at, wall_at, walls_at, cell_at, game_at, session_fault};
ghost use Rattle.definitions.specs.World.{Game};
ghost use Rattle.grid_world.specs.declared.fault.SessionFault.TheVariants.{Memory};
ghost use Rattle.grid_world.specs.Answers.{IsReadFrom, is_memory};
ghost use Rattle.grid_world.specs.Parts.{bare, head_of};
ghost use Rattle.grid_world.specs.Sessions.{rules_of, starts_of};

use crate::fault::SessionFault;
use crate::grid::Grid;
use crate::head::{fault, first_player_line, head};
use crate::parts::{Head, Sides};
use crate::rules::Rules;
use crate::session::Session;
use definitions::limits::{FARTHEST_REACH, MOST_SPEED, WIDEST_SIDE};
use definitions::{Cell, PlayerId, Seat, SessionRule};
use sha2::{Digest, Sha256};
use std::alloc::Global;
use text_lines::{is_last_line, is_within, take_line, three_or_five_at, two_of};

/// The cell of this column and this row, if it is inside.
fn cell_of(sides: Sides, x: u32, y: u32) -> Option<Cell>
    ensures { result ≡ (if is_inside (bare sides) (cell_at x y) then Some (cell_at x y) else None) }
{
    if x < u32::from(sides.width) && y < u32::from(sides.height) {
        Some(Cell {
            x: x as u16,
            y: y as u16,
        })
    } else {
        None
    }
}

/// The seat of a player that starts at this cell, with its own speed and reach, if it has, and otherwise those of the rules.
/// None comes exactly where a player may not have this speed and reach of its own.
fn seat_by(rules: Rules, start: Cell, own: Option<(u32, u32)>) -> Option<Seat>
    ensures { result ≡ (if spec.may_be_own (rules_of rules) own then Some (spec.seat_by (rules_of rules) start own) else None) }
{
    let Some((speed, reach)) = own else {
        return Some(Seat {
            start,
            speed: rules.speed,
            reach: rules.reach,
        });
    };
    if is_within(1, MOST_SPEED.into(), speed)
        && (reach <= FARTHEST_REACH.into()
            && !(speed == u32::from(rules.speed) && reach == u32::from(rules.reach)))
    {
        Some(Seat {
            start,
            speed: speed as u8,
            reach: reach as u8,
        })
    } else {
        None
    }
}

/// What the player's line says, and the text behind that line: where the player starts, and how far it walks and strikes.
#[tactic(auto, unfolding(crate::specs::Reading::seat_at))]
fn seat_of<'a>(
    head: &Head,
    player: PlayerId,
    text: &'a [u8],
) -> Result<(Seat, &'a [u8]), SessionFault>
    ensures { Says (λ x. (x.0, ended_lines_of x.1.now)) result (seat_at (head_of head.now) player (ended_lines_of text.now)) }
{
    let line = first_player_line(head.version) + u32::from(player);
    let (((number, x, y), own), rest) = three_or_five_at(
        fault(line, SessionRule::S1),
        b"player",
        text,
    )?;
    if !(own.is_none() || head.version != 1) {
        return Err(fault(line, SessionRule::S1));
    }
    let start = match cell_of(head.sides, x, y) {
        Some(cell) if number == u32::from(player) => cell,
        _ => return Err(fault(line, SessionRule::S8)),
    };
    let Some(seat) = seat_by(head.rules, start, own) else {
        return Err(fault(line, SessionRule::S11));
    };
    Ok((seat, rest))
}

/// The seats of the players in their order, and the text behind their lines.
fn seats_of<'a>(
    alloc: Global,
    head: &Head,
    text: &'a [u8],
) -> Result<(Vec<Seat>, &'a [u8]), SessionFault>
    ensures { Gives is_memory (λ x. (x.0.items, ended_lines_of x.1.now)) result (seats_at (head_of head.now) head.now.players 0 (ended_lines_of text.now)) }
{
    let mut seats = Vec::new(alloc);
    let mut rest = text;
    for player in 0..head.players {
        let (seat, after) = seat_of(head, player, rest)?;
        seats.push(seat)?;
        rest = after;
    }
    Ok((seats, rest))
}

/// Whether the cell comes after the other one in row order, if there is another one.
fn is_after(before: Option<Cell>, cell: Cell) -> bool
    ensures { result ≡ spec.is_after before cell }
{
    match before {
        None => true,
        Some(wall) => wall.y < cell.y || (wall.y == cell.y && wall.x < cell.x),
    }
}

/// Whether a player starts at the cell.
fn is_start(seats: &[Seat], cell: Cell) -> bool
    ensures { result ≡ has_cell (starts_of seats.now) cell }
{
    seats
        .iter()
        .map(|seat| seat.start)
        .any(|start| cell.x == start.x && cell.y == start.y)
}

/// The wall that line `n` says.
#[tactic(auto, unfolding(crate::specs::Reading::wall_at))]
fn wall_of(
    sides: Sides,
    seats: &[Seat],
    before: Option<Cell>,
    n: u32,
    line: &[u8],
) -> Result<Cell, SessionFault>
    ensures { Says (λ x. x) result (wall_at (bare sides) (starts_of seats.now) before n line.now) }
{
    let Some((x, y)) = two_of(b"wall", line) else {
        return Err(fault(n, SessionRule::S1));
    };
    let Some(wall) = cell_of(sides, x, y) else {
        return Err(fault(n, SessionRule::S8));
    };
    if !(is_after(before, wall) && !is_start(seats, wall)) {
        return Err(fault(n, SessionRule::S9));
    }
    Ok(wall)
}

/// The walls that lines `first` and on say, up to `end`, the last line.
fn walls_of(
    alloc: Global,
    sides: Sides,
    seats: &[Seat],
    first: u32,
    text: &[u8],
) -> Result<Vec<Cell>, SessionFault>
    requires wide { sides.width ≤ WIDEST_SIDE }
    requires high { sides.height ≤ WIDEST_SIDE }
    requires early { first ≤ 72 }
    ensures { Gives is_memory (λ v. v.items) result (walls_at (bare sides) (starts_of seats.now) (ended_lines_of text.now) None first) }
{
    let mut walls = Vec::new(alloc);
    let mut before = None;
    let mut n = first;
    let mut rest = text;
    while !rest.is_empty() {
        let (line, after) = take_line(rest);
        if is_last_line(line) {
            if after.is_empty() {
                return Ok(walls);
            }
            return Err(fault(n + 1, SessionRule::S1));
        }
        let wall = wall_of(sides, seats, before, n, line)?;
        walls.push(wall)?;
        before = Some(wall);
        n += 1;
        rest = after;
    }
    Err(fault(n, SessionRule::S1))
}

/// The session of a text, or the first rule that the text breaks.
#[tactic(auto, unfolding(crate::specs::Reading::game_at, crate::specs::Reading::said_by))]
fn session_of(alloc: Global, text: &[u8]) -> Result<Session, SessionFault>
    ensures said { Gives is_memory (λ s. s) result (game_at text.now) }
    ensures early { (e : SessionFault) → head_at (ended_lines_of text.now) ≡ Err e → result ≡ Err e }
{
    let (head, rest) = head(text)?;
    let (seats, rest) = seats_of(alloc, &head, rest)?;
    let first = first_player_line(head.version) + u32::from(head.players);
    let walls = walls_of(alloc, head.sides, &seats, first, rest)?;
    let grid = Grid::new(alloc, head.sides.width, head.sides.height, walls)?;
    let id = Sha256::digest(text);
    Ok(Session::new(
        head.version,
        id,
        grid,
        head.rules,
        head.turns,
        head.ahead,
        seats,
    ))
}

/// Reads a session from its text.
///
/// A text that is of no session is refused with its first faulty line, and of the rules that this line breaks the
/// lowest. A text of a session is refused only where memory runs out.
pub fn read_session(alloc: Global, text: &[u8]) -> Result<Session, SessionFault>
    // What is read has this text and no other.
    ensures found { IfOk result (λ s. IsReadFrom s text.now) }
    // Each text of a session is read as that session, unless memory runs out.
    ensures only { (game : Game) → IsReadFrom game text.now → IsRead Memory game result }
    // Which line is at fault, and which rule it breaks.
    ensures exact { Faults is_memory result (session_fault text.now) }
    // A fault in the lines before those of the players is answered before any memory is taken.
    ensures early { (e : SessionFault) → head_at (ended_lines_of text.now) ≡ Err e → result ≡ Err e }
    // All of it once more, as the text is read line by line.
    ensures said { Gives is_memory (λ s. s) result (game_at text.now) }
{
    session_of(alloc, text)
}
