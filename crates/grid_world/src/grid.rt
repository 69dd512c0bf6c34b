//! A rectangle of cells, some of which are walls.

ghost use Rattle.std.specs.Prelude.{◌≡◌, ◌<◌, ◌+◌, ◌*◌, ◌/◌, ℕ, length, IsTrue, IfOk};
ghost use Rattle.definitions.specs.World as world;
ghost use Rattle.definitions.specs.World.{is_inside, is_wall, is_open};
ghost use Rattle.grid_world.specs.Grids.{IsGrid, AreRowsOf, words_of, has_bit};
ghost use Rattle.definitions.specs.Lists.{EachIs};

use definitions::Cell;
use std::alloc::{AllocError, Global};
use std::marker::Model;

/// The square distance of two cells: the greater of the differences of their columns and of their rows.
pub fn distance(a: Cell, b: Cell) -> u16
    ensures { result ≡ world.distance a b }
{
    a.x.abs_diff(b.x).max(a.y.abs_diff(b.y))
}

/// How many words of 64 bits a row of this many cells takes.
fn words_of_row(width: u16) -> usize
    ensures { result ≡ words_of width }
{
    usize::from(width).div_ceil(64)
}

/// The walls of a grid as rows of bits.
fn rows_of(alloc: Global, width: u16, height: u16, walls: &[Cell]) -> Result<Vec<u64>, AllocError>
    requires { EachIs (λ c. IsTrue (is_inside (record { width = width; height = height; walls = walls.now }) c)) walls.now }
    ensures { IfOk result (λ rows. AreRowsOf (record { width = width; height = height; walls = walls.now }) rows.items) }
{
    let words = words_of_row(width);
    let mut rows = vec![in alloc; 0u64; usize::from(height) * words]?;
    for wall in walls {
        let word = usize::from(wall.y) * words + usize::from(wall.x / 64);
        rows[word] |= 1 << (wall.x % 64);
    }
    Ok(rows)
}

/// A session's grid: how wide and how high it is, and which of its cells are walls.
///
/// Columns and rows are counted from 0. Row order is by row, and by column within a row.
#[derive(Drop)]
pub struct Grid {
    width: u16,
    height: u16,
    // in row order
    walls: Vec<Cell>,
    // row by row, a bit for each cell, and the bits past the width are 0
    rows: Vec<u64>,
}

impl Model for Grid {
    ghost use Rattle.definitions.specs.World.{Ground};
    ghost use Rattle.grid_world.specs.Grids.{IsGrid, AreRowsOf};

    ghost Value = { Ground };

    ghost view = { λ g. record { width = g.width; height = g.height; walls = g.walls.items } };

    ghost invariant = { λ g. IsGrid (record { width = g.width; height = g.height; walls = g.walls.items })
        × AreRowsOf (record { width = g.width; height = g.height; walls = g.walls.items }) g.rows.items };
}

impl Grid {
    /// The grid of this many columns and rows, with these walls.
    pub(crate) fn new(
        alloc: Global,
        width: u16,
        height: u16,
        walls: Vec<Cell>,
    ) -> Result<Grid, AllocError>
        requires { IsGrid (record { width = width; height = height; walls = walls.items }) }
        ensures { IfOk result (λ g. g ≡ record { width = width; height = height; walls = walls.items }) }
    {
        let rows = rows_of(alloc, width, height, &walls)?;
        Ok(Grid {
            width,
            height,
            walls,
            rows,
        })
    }

    /// How many columns there are, from 1 to `WIDEST_SIDE`.
    pub fn width(&self) -> u16
        ensures value { result ≡ self.now.width }
        ensures grid { IsGrid self.now }
    {
        self.width
    }

    /// How many rows there are, from 1 to `WIDEST_SIDE`.
    pub fn height(&self) -> u16
        ensures value { result ≡ self.now.height }
        ensures grid { IsGrid self.now }
    {
        self.height
    }

    /// The walls in row order.
    pub(crate) fn walls(&self) -> &[Cell]
        ensures { result.now ≡ self.now.walls }
    {
        &self.walls
    }

    /// Whether the cell is one of the grid.
    pub fn inside(&self, cell: Cell) -> bool
        ensures { result ≡ is_inside self.now cell }
    {
        cell.x < self.width && cell.y < self.height
    }

    /// Whether the cell is a wall of the grid. A cell outside is none.
    pub fn wall(&self, cell: Cell) -> bool
        ensures { result ≡ is_wall self.now cell }
    {
        let _ = &self.width;
        if !self.inside(cell) {
            return false;
        }
        let row = self.wall_row(cell.y);
        (row[usize::from(cell.x / 64)] >> (cell.x % 64)) & 1 == 1
    }

    /// Whether the cell is inside and no wall.
    pub fn open(&self, cell: Cell) -> bool
        ensures { result ≡ is_open self.now cell }
    {
        self.inside(cell) && !self.wall(cell)
    }

    /// The walls of a row, a bit for each cell: the cell of column `x` is a wall exactly where bit `x % 64` of word
    /// `x / 64` is 1. The bits past the width are 0.
    pub fn wall_row(&self, y: u16) -> &[u64]
        requires { y < self.now.height }
        ensures words { length result.now ≡ words_of self.now.width }
        ensures walls { (x : ℕ) → x < 64 * length result.now
            → has_bit result.now x ≡ is_wall self.now (record { x = x; y = y }) }
    {
        let words = words_of_row(self.width);
        let first = usize::from(y) * words;
        &self.rows[first..first + words]
    }

    /// The same grid once more.
    pub fn copy(&self, alloc: Global) -> Result<Grid, AllocError>
        ensures { IfOk result (λ g. g ≡ self.now) }
    {
        let walls = Vec::from_slice(alloc, &self.walls)?;
        let rows = Vec::from_slice(alloc, &self.rows)?;
        Ok(Grid {
            width: self.width,
            height: self.height,
            walls,
            rows,
        })
    }
}
