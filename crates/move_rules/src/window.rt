//! Walks over the cells within a radius of the cell that they begin at, a row of bits for each row of cells.
//!
//! A walk of as many steps as the radius never leaves the window, so what lies outside it needn't be known.

ghost use Rattle.std.specs.Prelude.{length, ◌≡◌, ◌+◌, ◌*◌, ◌<◌, ◌≤◌, ◌==◌, ◌&&◌, ◌||◌, ℕ, nat_lt, false, [], ◌∷◌, IsTrue, slice_index};
ghost use Rattle.definitions.specs.World.{has_cell, is_open};
ghost use Rattle.definitions.specs.Walk.{walked};
ghost use Rattle.move_rules.specs.Windows.{is_set, lit, near, near_place, shows, ShowsOpen, ShowsWalk};

use definitions::Cell;
use definitions::limits::{MOST_SPEED, WIDEST_SIDE};
use grid_world::{Grid, distance};

/// How many rows and columns the widest window has: as many to each side of its middle as the fastest player walks in a turn.
const ROWS: usize = 2 * MOST_SPEED as usize + 1;

/// The rows of a window, from the top. The lowest bit of a row is its first column.
type Rows = [u32; ROWS];

/// Rows of which no bit is 1.
fn no_rows() -> Rows
    ensures len { length result ≡ ROWS }
    ensures bits { (i r : ℕ) → lit result i r ≡ false }
{
    [0; ROWS]
}

/// Whether the cell at this place of the window is open. Places left of the grid or above it have no cell.
#[tactic(auto, unfolding(crate::specs::Windows::shows))]
fn is_open_at(grid: &Grid, middle: Cell, radius: u16, column: u16, row: u16) -> bool
    requires x { middle.x ≤ WIDEST_SIDE }
    requires y { middle.y ≤ WIDEST_SIDE }
    requires column { column < ROWS }
    requires row { row < ROWS }
    ensures { result ≡ shows middle radius (is_open grid.now) column row }
{
    let x = middle.x + column;
    let y = middle.y + row;
    if x < radius {
        return false;
    }
    if y < radius {
        return false;
    }
    grid.open(Cell {
        x: x - radius,
        y: y - radius,
    })
}

/// The word, and the bit of this column too if it is `on`.
fn with_bit(word: u32, column: u16, on: bool) -> u32
    requires { column < 32 }
    ensures { (i : ℕ) → is_set result i ≡ (is_set word i || (on && (i == column))) }
{
    if on { word | 1 << column } else { word }
}

/// The open cells of a row of the window.
fn open_row(grid: &Grid, middle: Cell, radius: u16, row: u16) -> u32
    requires x { middle.x ≤ WIDEST_SIDE }
    requires y { middle.y ≤ WIDEST_SIDE }
    requires radius { radius ≤ MOST_SPEED }
    requires row { row < ROWS }
    ensures { (i : ℕ) → is_set result i ≡ (nat_lt i (2 * radius + 1) && shows middle radius (is_open grid.now) i row) }
{
    let mut word = 0;
    for column in 0..2 * radius + 1 {
        word = with_bit(word, column, is_open_at(grid, middle, radius, column, row));
    }
    word
}

/// The open cells of the window.
fn open_rows(grid: &Grid, middle: Cell, radius: u16) -> Rows
    requires x { middle.x ≤ WIDEST_SIDE }
    requires y { middle.y ≤ WIDEST_SIDE }
    requires radius { radius ≤ MOST_SPEED }
    ensures { ShowsOpen grid.now middle radius result }
{
    let mut rows = no_rows();
    for row in 0..2 * radius + 1 {
        rows[usize::from(row)] = open_row(grid, middle, radius, row);
    }
    rows
}

/// The word with each bit set that is set or lies beside one.
fn spread(word: u32) -> u32
    ensures { (i : ℕ) → i < 32 → is_set result i ≡ near (is_set word) i }
{
    word | (word << 1 | word >> 1)
}

/// The row at this place, or an empty one past the last.
fn row_at(rows: &Rows, row: usize) -> u32
    ensures { result ≡ slice_index rows.now row }
{
    if row < rows.len() { rows[row] } else { 0 }
}

/// The open places of a row that lie at a set one or beside it, corners too.
fn next_row(open_rows: &Rows, rows: &Rows, row: usize) -> u32
    requires { row < ROWS }
    ensures { (i : ℕ) → is_set result i ≡ (lit open_rows.now i row && near_place (lit rows.now) i row) }
{
    let column = row_at(rows, row.saturating_sub(1)) | (row_at(rows, row) | row_at(rows, row + 1));
    row_at(open_rows, row) & spread(column)
}

/// The open places that lie at a set one or beside it, corners too.
fn next_rows(open_rows: &Rows, rows: &Rows) -> Rows
    ensures { (i r : ℕ) → lit result i r ≡ (lit open_rows.now i r && near_place (lit rows.now) i r) }
{
    let mut next = no_rows();
    for row in 0..ROWS {
        next[row] = next_row(open_rows, rows, row);
    }
    next
}

/// The middle of the window alone.
fn middle_rows(radius: u16) -> Rows
    requires { radius ≤ MOST_SPEED }
    ensures { (i r : ℕ) → lit result i r ≡ ((r == radius) && (i == radius)) }
{
    let mut rows = no_rows();
    rows[usize::from(radius)] = with_bit(0, radius, true);
    rows
}

/// The cells of the window to which as many steps lead from its middle as its radius has.
fn walk_rows(grid: &Grid, middle: Cell, radius: u16) -> Rows
    requires x { middle.x ≤ WIDEST_SIDE }
    requires y { middle.y ≤ WIDEST_SIDE }
    requires radius { radius ≤ MOST_SPEED }
    requires middle { IsTrue (is_open grid.now middle) }
    ensures { ShowsWalk grid.now middle radius radius result }
{
    let opens = open_rows(grid, middle, radius);
    let mut rows = middle_rows(radius);
    for _step in 0..radius {
        rows = next_rows(&opens, &rows);
    }
    rows
}

/// Whether a walk of this many steps over open cells leads from `from` to `to`.
pub(crate) fn leads(grid: &Grid, from: Cell, to: Cell, steps: u16) -> bool
    requires x { from.x ≤ WIDEST_SIDE }
    requires y { from.y ≤ WIDEST_SIDE }
    requires steps { steps ≤ MOST_SPEED }
    requires from { IsTrue (is_open grid.now from) }
    ensures { result ≡ has_cell (walked grid.now steps (from ∷ [])) to }
{
    if distance(from, to) > steps {
        return false;
    }
    let rows = walk_rows(grid, from, steps);
    let row = rows[usize::from(to.y + steps - from.y)];
    (row >> (to.x + steps - from.x)) & 1 == 1
}
