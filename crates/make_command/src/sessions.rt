//! The session of a number.

ghost use Rattle.std.specs.Prelude.{◌≡◌, ◌<◌, ◌++◌, [], length, map, IfOk, OnOk};
ghost use Rattle.definitions.specs.World as W;
ghost use Rattle.text_lines.specs.Lines.{joined};
ghost use Rattle.grid_world.specs.Answers.{IsReadFrom};
ghost use Rattle.grid_world.specs.Text.{head_lines, player_lines, session_text, wall_line};
ghost use Rattle.make_command.specs.Making as M;
ghost use Rattle.make_command.specs.Making.{made_rules, made_session, plain_game, seat_at, starts_of, walls_of, with_wall};

use crate::sizes::{
    BLAST, CAP, CELLS, CELLS_A_WALL, COST, PLAYERS, REACH, SIDE, SPEED, START_CHARGE, TURNS,
};
use definitions::{Cell, PlayerId};
use grid_world::{Session, read_session};
use pilots::{draw, generator_of};
use rand_pcg::Pcg32;
use std::alloc::{AllocError, Global};
use text_lines::put_line;

/// The cell at this place in row order.
fn cell_at(place: u16) -> Cell
    ensures { result ≡ M.cell_at place }
{
    Cell {
        x: place % SIDE,
        y: place / SIDE,
    }
}

/// Whether the cell is one of these.
fn has_cell(cells: &[Cell], cell: Cell) -> bool
    ensures { result ≡ W.has_cell cells.now cell }
{
    cells.iter().any(|c| cell.x == c.x && cell.y == c.y)
}

/// Adds the cell at this place to the walls, if what was drawn for it makes it one.
fn put_drawn(walls: &mut Vec<Cell>, place: u16, drawn: u32) -> Result<(), AllocError>
    ensures { OnOk result (walls.new.items ≡ with_wall walls.old.items place drawn) }
{
    if drawn == 0 && place != 0 {
        walls.push(cell_at(place))?;
    }
    Ok(())
}

/// Draws for each cell in row order whether it is a wall.
fn draw_walls(alloc: Global, chance: &mut Pcg32) -> Result<Vec<Cell>, AllocError>
    ensures { IfOk result (λ walls. (walls.items, chance.new) ≡ walls_of CELLS chance.old) }
{
    let mut walls = Vec::new(alloc);
    for place in 0..CELLS {
        let drawn = draw(chance, CELLS_A_WALL);
        put_drawn(&mut walls, place, drawn)?;
    }
    Ok(walls)
}

/// The first place from this one on whose cell is no wall. Behind the last place comes the first.
fn open_place(walls: &[Cell], first: u16) -> u16
    requires { first < CELLS }
    ensures { result ≡ M.open_place walls.now CELLS first }
{
    let mut place = first;
    for step in 0..CELLS {
        if !has_cell(walls, cell_at(place)) {
            return place;
        }
        place = (place + 1) % CELLS;
    }
    place
}

/// Draws for each player where it starts.
fn draw_starts(alloc: Global, walls: &[Cell], chance: &mut Pcg32) -> Result<Vec<Cell>, AllocError>
    ensures { IfOk result (λ starts. (starts.items, chance.new) ≡ starts_of walls.now PLAYERS chance.old) }
{
    let mut starts = Vec::new(alloc);
    for player in 0..PLAYERS {
        let first = draw(chance, CELLS.into()) as u16;
        starts.push(cell_at(open_place(walls, first)))?;
    }
    Ok(starts)
}

/// Writes the lines before those of the players.
#[tactic(auto, unfolding(crate::specs::Making::plain_game))]
fn put_head(alloc: Global, out: &mut Vec<u8>, starts: &[Cell]) -> Result<(), AllocError>
    requires { length starts.now ≡ PLAYERS }
    ensures { OnOk result (out.new.items ≡ out.old.items ++ joined (head_lines (plain_game [] starts.now))) }
{
    let side = u32::from(SIDE);
    let steps = [u32::from(SPEED), u32::from(REACH), u32::from(BLAST)];
    let charges = [u32::from(START_CHARGE), u32::from(CAP), u32::from(COST)];
    put_line(alloc, out, b"playout", &[1])?;
    put_line(alloc, out, b"grid", &[side, side])?;
    put_line(alloc, out, b"rules", &steps)?;
    put_line(alloc, out, b"charge", &charges)?;
    put_line(alloc, out, b"turns", &[TURNS])?;
    put_line(alloc, out, b"players", &[starts.len() as u32])?;
    Ok(())
}

/// Writes the players' lines.
fn put_starts(alloc: Global, out: &mut Vec<u8>, starts: &[Cell]) -> Result<(), AllocError>
    requires { length starts.now ≡ PLAYERS }
    ensures { OnOk result (out.new.items ≡ out.old.items ++ joined (player_lines made_rules (map seat_at starts.now) 0)) }
{
    for player in 0..PLAYERS {
        let start = starts[usize::from(player)];
        let numbers = [u32::from(player), u32::from(start.x), u32::from(start.y)];
        put_line(alloc, out, b"player", &numbers)?;
    }
    Ok(())
}

/// Writes the walls' lines.
fn put_walls(alloc: Global, out: &mut Vec<u8>, walls: &[Cell]) -> Result<(), AllocError>
    ensures { OnOk result (out.new.items ≡ out.old.items ++ joined (map wall_line walls.now)) }
{
    for wall in walls {
        put_line(alloc, out, b"wall", &[u32::from(wall.x), u32::from(wall.y)])?;
    }
    Ok(())
}

/// The text of the session with these walls and starts.
fn text_of(alloc: Global, walls: &[Cell], starts: &[Cell]) -> Result<Vec<u8>, AllocError>
    requires { length starts.now ≡ PLAYERS }
    ensures { IfOk result (λ text. text.items ≡ session_text (plain_game walls.now starts.now)) }
{
    let mut out = Vec::new(alloc);
    put_head(alloc, &mut out, starts)?;
    put_starts(alloc, &mut out, starts)?;
    put_walls(alloc, &mut out, walls)?;
    put_line(alloc, &mut out, b"end", &[])?;
    Ok(out)
}

/// The session of this number, which is the same whenever it is made: 8 players on a grid of 64 by 64 cells, of which one in eight is
/// a wall, for 200 turns. An error comes only where memory runs out.
pub fn make_session(alloc: Global, number: u64) -> Result<Session, AllocError>
    // It is the one that the number's draws give.
    ensures value { IfOk result (λ s. s ≡ made_session number) }
    // It is a session that its own text says.
    ensures read { IfOk result (λ s. IsReadFrom s (session_text s)) }
{
    let mut chance = generator_of(number);
    let walls = draw_walls(alloc, &mut chance)?;
    let starts = draw_starts(alloc, &walls, &mut chance)?;
    let text = text_of(alloc, &walls, &starts)?;
    match read_session(alloc, &text) {
        Ok(session) => Ok(session),
        Err(_) => Err(AllocError),
    }
}
