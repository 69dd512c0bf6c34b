//! The sphere of influence of a set of cells.

ghost use Rattle.std.specs.Prelude.{◌≡◌, ◌<◌};
ghost use Rattle.definitions.specs.World.{players_of};
ghost use Rattle.definitions.specs.Sphere as D;
ghost use Rattle.cell_set.specs.Regions.{IsSizeOf, AreOpen};
ghost use Rattle.influence.specs.Strikes.{struck_from};

use cell_set::CellSet;
use definitions::PlayerId;
use grid_world::Session;

/// Adds to the set all cells of the grid, walls too, that this player can affect by a strike from a cell of it: it strikes as
/// far as its own reach, and the blast, which is the same for all, goes on from there.
pub fn grow_strike(set: &mut CellSet, session: &Session, player: PlayerId)
    requires size { IsSizeOf session.now.grid set.old }
    requires player { player < players_of session.now }
    ensures { set.new ≡ record set.old { cells = struck_from session.now player set.old.cells } }
{
    set.grow_square(session.reach(player) + session.rules().blast);
}

/// Makes `out` the sphere of `from`: all cells of the grid, walls too, that this player can affect within a turn if it stands
/// on a cell of `from`. It walks as many steps as its own speed lets it, and strikes from there.
pub fn sphere_of(out: &mut CellSet, from: &CellSet, session: &Session, player: PlayerId)
    requires size { IsSizeOf session.now.grid from.now }
    requires out_size { IsSizeOf session.now.grid out.old }
    requires open { AreOpen session.now.grid from.now.cells }
    requires player { player < players_of session.now }
    ensures { out.new ≡ record out.old { cells = D.sphere_of session.now player from.now.cells } }
{
    out.copy_from(from);
    for _step in 0..session.speed(player) {
        out.grow_walk(session.grid());
    }
    grow_strike(out, session, player);
}
