//! How the set that is kept of a player grows, step by step.

ghost use Rattle.std.specs.Prelude.{◌≡◌, ◌+◌, ◌<◌, ◌≤◌, IsTrue, IfOk};
ghost use Rattle.definitions.specs.World.{is_open, players_of, seat_of};
ghost use Rattle.cell_set.specs.Regions.{IsSizeOf};
ghost use Rattle.dilation.specs.Dilated.{most_growths};
ghost use Rattle.dilation.specs.Following.{IsFollowed, IsKept};

use crate::steps::Steps;
use cell_set::CellSet;
use definitions::{Cell, PlayerId};
use grid_world::{Grid, Session};
use std::alloc::{AllocError, Global};
use std::sync::ledger::Ledger;

/// The cells to which a player was followed from the cell at which it was last seen.
#[derive(Drop)]
pub(crate) struct Kept {
    // for so many turns
    pub turns: u32,
    // a step more would add no cell, so none is tried
    pub full: bool,
    pub reached: CellSet,
}

/// The set of a player that stands at its start, and was followed for no turn.
pub(crate) fn keep(alloc: Global, session: &Session, player: PlayerId) -> Result<Kept, AllocError>
    requires { player < players_of session.now }
    ensures kept { IfOk result (IsKept session.now player (seat_of session.now player).start) }
    ensures turns { IfOk result (λ k. k.turns ≡ 0) }
{
    let grid = session.grid();
    let reached = CellSet::one(alloc, grid.width(), grid.height(), session.start(player))?;
    Ok(Kept {
        turns: 0,
        full: false,
        reached,
    })
}

/// Follows the player anew, who stands on this cell, for no turn yet.
pub(crate) fn begin(kept: &mut Kept, _session: &Session, _player: PlayerId, cell: Cell)
    requires size { IsSizeOf _session.now.grid kept.old.reached }
    requires open { IsTrue (is_open _session.now.grid cell) }
    ensures kept { IsKept _session.now _player cell kept.new }
    ensures turns { kept.new.turns ≡ 0 }
{
    kept.reached.set_one(cell);
    kept.turns = 0;
    kept.full = false;
}

/// Adds the cells that are one step on, and counts that. No set grows in another way.
fn grow_once<L: Ledger>(kept: &mut Kept, grid: &Grid, _cell: Cell, _step: u32, steps: &mut Steps<L>)
    requires followed { IsFollowed grid.now _cell _step kept.old }
    ensures followed { IsFollowed grid.now _cell (_step + 1) kept.new }
    ensures turns { kept.new.turns ≡ kept.old.turns }
    ensures counted { steps.new ≡ steps.old + 1 }
{
    steps.tick();
    kept.full = !kept.reached.grow_walk(grid);
}

/// Makes the cells of walks of `from` steps those of walks of `to` steps. A set that is full stays as it is.
fn grow<L: Ledger>(
    kept: &mut Kept,
    grid: &Grid,
    _cell: Cell,
    from: u32,
    to: u32,
    steps: &mut Steps<L>,
)
    requires followed { IsFollowed grid.now _cell from kept.old }
    requires order { from ≤ to }
    ensures followed { IsFollowed grid.now _cell to kept.new }
    ensures turns { kept.new.turns ≡ kept.old.turns }
    ensures counted { steps.old ≤ steps.new }
    ensures cost { steps.new + from ≤ steps.old + to }
{
    for step in from..to {
        if kept.full {
            return;
        }
        grow_once(kept, grid, _cell, step, steps);
    }
}

/// Follows the player that was last seen at this cell for so many turns, as many steps a turn as its own speed: on from those
/// that it was followed for, or anew where they are too many.
pub(crate) fn follow<L: Ledger>(
    kept: &mut Kept,
    session: &Session,
    player: PlayerId,
    cell: Cell,
    missed: u32,
    steps: &mut Steps<L>,
)
    requires player { player < players_of session.now }
    requires kept { IsKept session.now player cell kept.old }
    requires open { IsTrue (is_open session.now.grid cell) }
    requires missed { missed ≤ session.now.turns }
    ensures kept { IsKept session.now player cell kept.new }
    ensures turns { kept.new.turns ≡ missed }
    ensures counted { steps.old ≤ steps.new }
    ensures cost { steps.new ≤ steps.old + most_growths (seat_of session.now player).speed kept.old.turns missed }
{
    session.facts();
    if missed < kept.turns {
        begin(kept, session, player, cell);
    }
    let speed = u32::from(session.speed(player));
    let from = kept.turns * speed;
    grow(kept, session.grid(), cell, from, missed * speed, steps);
    kept.turns = missed;
}
