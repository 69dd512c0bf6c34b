//! Walks and spheres computed cell by cell: the plain program beside the rows of bits.

ghost use Rattle.std.specs.Prelude.{◌<◌};
ghost use Rattle.definitions.specs.World.{players_of};

use definitions::{Cell, PlayerId};
use grid_world::{Grid, Session};
use std::alloc::{AllocError, Global};

/// A mark for each cell of a grid, in row order.
#[derive(Drop)]
pub struct Marks {
    width: usize,
    height: usize,
    cells: Vec<bool>,
}

/// Whether the cell is marked; none outside the grid is.
fn is_marked(marks: &Marks, x: usize, y: usize) -> bool {
    if x >= marks.width || y >= marks.height {
        return false;
    }
    let place = y.wrapping_mul(marks.width).wrapping_add(x);
    match marks.cells.as_slice().get(place) {
        None => false,
        Some(mark) => *mark,
    }
}

/// Whether the cell or one beside it is marked, corners too.
fn is_near_mark(marks: &Marks, x: usize, y: usize) -> bool {
    for down in 0..3usize {
        for right in 0..3usize {
            let column = x.wrapping_add(right).wrapping_sub(1);
            let row = y.wrapping_add(down).wrapping_sub(1);
            if is_marked(marks, column, row) {
                return true;
            }
        }
    }
    false
}

/// Whether a cell of the same row within this many columns is marked.
fn has_mark_along(marks: &Marks, x: usize, y: usize, radius: usize) -> bool {
    for near in 0..radius.wrapping_mul(2).wrapping_add(1) {
        if is_marked(marks, x.wrapping_add(near).wrapping_sub(radius), y) {
            return true;
        }
    }
    false
}

/// Whether a cell of the same column within this many rows is marked.
fn has_mark_across(marks: &Marks, x: usize, y: usize, radius: usize) -> bool {
    for near in 0..radius.wrapping_mul(2).wrapping_add(1) {
        if is_marked(marks, x, y.wrapping_add(near).wrapping_sub(radius)) {
            return true;
        }
    }
    false
}

/// Whether the cell is inside the grid and no wall.
fn is_open(grid: &Grid, x: usize, y: usize) -> bool {
    match (u16::try_from(x), u16::try_from(y)) {
        (Ok(x), Ok(y)) => grid.open(Cell { x, y }),
        _ => false,
    }
}

/// No marks, for a grid of this size.
fn no_marks(alloc: Global, grid: &Grid) -> Marks {
    let width = usize::from(grid.width());
    let height = usize::from(grid.height());
    let cells = Vec::new(alloc);
    Marks {
        width,
        height,
        cells,
    }
}

/// This cell marked alone.
pub fn mark_of(alloc: Global, grid: &Grid, cell: Cell) -> Result<Marks, AllocError> {
    let mut marks = no_marks(alloc, grid);
    for y in 0..grid.height() {
        for x in 0..grid.width() {
            marks.cells.push(x == cell.x && y == cell.y)?;
        }
    }
    Ok(marks)
}

/// The open cells that are marked or have a marked one beside them.
pub fn step(alloc: Global, grid: &Grid, marks: &Marks) -> Result<Marks, AllocError> {
    let mut next = no_marks(alloc, grid);
    for y in 0..marks.height {
        for x in 0..marks.width {
            let open = is_open(grid, x, y);
            next.cells.push(open && is_near_mark(marks, x, y))?;
        }
    }
    Ok(next)
}

/// The cells to which a walk of this many steps leads from the marked ones.
pub fn walk(alloc: Global, grid: &Grid, mut marks: Marks, steps: u8) -> Result<Marks, AllocError> {
    for _step in 0..steps {
        marks = step(alloc, grid, &marks)?;
    }
    Ok(marks)
}

/// The cells within this square distance of a marked one: along the rows, and then across them.
fn square(alloc: Global, grid: &Grid, marks: &Marks, radius: usize) -> Result<Marks, AllocError> {
    let mut along = no_marks(alloc, grid);
    for y in 0..marks.height {
        for x in 0..marks.width {
            along.cells.push(has_mark_along(marks, x, y, radius))?;
        }
    }
    let mut across = no_marks(alloc, grid);
    for y in 0..marks.height {
        for x in 0..marks.width {
            across.cells.push(has_mark_across(&along, x, y, radius))?;
        }
    }
    Ok(across)
}

/// The player's sphere of influence from the marked cells.
pub fn sphere(
    alloc: Global,
    session: &Session,
    player: PlayerId,
    marks: &Marks,
) -> Result<Marks, AllocError>
    requires { player < players_of session.now }
{
    let grid = session.grid();
    let first = step(alloc, grid, marks)?;
    let walked = walk(alloc, grid, first, session.speed(player).saturating_sub(1))?;
    let blast = usize::from(session.rules().blast);
    let radius = usize::from(session.reach(player)).wrapping_add(blast);
    square(alloc, grid, &walked, radius)
}

/// Whether a cell is marked in both.
pub fn have_common(marks: &Marks, others: &Marks) -> bool {
    for y in 0..marks.height {
        for x in 0..marks.width {
            if is_marked(marks, x, y) && is_marked(others, x, y) {
                return true;
            }
        }
    }
    false
}

/// Whether the cell is marked.
pub fn has(marks: &Marks, cell: Cell) -> bool {
    is_marked(marks, usize::from(cell.x), usize::from(cell.y))
}

/// In how many turns player 0, who stays on one cell, needs no word from player 1, who was last
/// seen on its start: the first turn in which their spheres have a cell in common, or the number
/// of turns.
pub fn turns_alone(
    alloc: Global,
    session: &Session,
    at: Cell,
    other: Cell,
) -> Result<u32, AllocError>
    requires { 1 < players_of session.now }
{
    let grid = session.grid();
    let own = sphere(alloc, session, 0, &mark_of(alloc, grid, at)?)?;
    let mut reached = mark_of(alloc, grid, other)?;
    for turn in 0..session.turns() {
        let theirs = sphere(alloc, session, 1, &reached)?;
        if have_common(&own, &theirs) {
            return Ok(turn);
        }
        reached = walk(alloc, grid, reached, session.speed(1))?;
    }
    Ok(session.turns())
}
