//! Where each player was last seen, and where it can be by now.

ghost use Rattle.std.specs.Prelude.{◌≡◌, ◌+◌, ◌<◌, ◌≤◌, IsTrue, IfOk, length, slice_set};
ghost use Rattle.definitions.specs.World.{players_of, is_open, seat_of};
ghost use Rattle.dilation.specs.Dilated.{starts_of, cell_of, kept_of, none_kept, kept_set, most_growths, turns_of};
ghost use Rattle.dilation.specs.Following.{AreFresh, IsDilationOf};

use crate::growth::{Kept, begin, follow, keep};
use crate::steps::Steps;
use cell_set::CellSet;
use definitions::{Cell, PlayerId};
use grid_world::Session;
use std::alloc::{AllocError, Global};
use std::marker::{Brand, Model};
use std::sync::ledger::{Blank, Ledger};

/// The cell at which each player of a session was last seen, and the cells to which each was followed from there.
#[derive(Drop)]
pub struct Dilation {
    // the cell of each player
    cells: Vec<Cell>,
    // and the set that is kept of it
    kept: Vec<Kept>,
}

impl Model for Dilation {
    ghost use Rattle.dilation.specs.Dilated.{Dilated};

    ghost Value = { Dilated };

    ghost view = { λ d. record { cells = d.cells.items; kept = d.kept.items } };
}

/// The cells at which the players start.
fn starts_of(alloc: Global, session: &Session) -> Result<Vec<Cell>, AllocError>
    ensures { IfOk result (λ cells. cells.items ≡ starts_of session.now) }
{
    let mut cells = Vec::with_capacity(alloc, usize::from(session.players()))?;
    for player in 0..session.players() {
        cells.push(session.start(player))?;
    }
    Ok(cells)
}

/// A set for each player, who stands at its start.
fn keep_starts(alloc: Global, session: &Session) -> Result<Vec<Kept>, AllocError>
    ensures { IfOk result (λ kept. AreFresh session.now (starts_of session.now) kept.items) }
{
    let mut kept = Vec::with_capacity(alloc, usize::from(session.players()))?;
    for player in 0..session.players() {
        kept.push(keep(alloc, session, player)?)?;
    }
    Ok(kept)
}

impl Dilation {
    /// Each player of the session stands at its start, and no one was followed yet. All memory is taken here. The session is
    /// not kept: each call is handed the one for which the dilation was made.
    pub fn new(alloc: Global, session: &Session) -> Result<Dilation, AllocError>
        ensures dilated { IfOk result (IsDilationOf session.now) }
        ensures seen { IfOk result (λ d. d.cells ≡ starts_of session.now) }
        ensures kept { IfOk result (λ d. turns_of d.kept ≡ none_kept (starts_of session.now)) }
    {
        session.facts();
        let cells = starts_of(alloc, session)?;
        let kept = keep_starts(alloc, session)?;
        Ok(Dilation { cells, kept })
    }

    /// The cell at which the player was last seen.
    pub fn cell(&self, player: PlayerId) -> Cell
        requires { player < length self.now.cells }
        ensures { result ≡ cell_of self.now.cells player }
    {
        self.cells[usize::from(player)]
    }

    /// For how many turns the player was followed from its cell: 0 where it was seen since, and otherwise what `advance` or
    /// `grow_to` was last asked for.
    pub fn kept(&self, player: PlayerId) -> u32
        requires { player < length self.now.kept }
        ensures { result ≡ kept_of (turns_of self.now.kept) player }
    {
        self.kept[usize::from(player)].turns
    }

    /// The player was seen at this cell, and stands there from now on. To where it was followed from another one is forgotten.
    pub fn resolved(&mut self, session: &Session, player: PlayerId, cell: Cell)
        requires dilated { IsDilationOf session.now self.old }
        requires player { player < players_of session.now }
        requires open { IsTrue (is_open session.now.grid cell) }
        ensures dilated { IsDilationOf session.now self.new }
        ensures seen { self.new.cells ≡ slice_set self.old.cells player cell }
        ensures kept { turns_of self.new.kept ≡ slice_set (turns_of self.old.kept) player 0 }
    {
        let at = usize::from(player);
        self.cells[at] = cell;
        begin(&mut self.kept[at], session, player, cell);
    }

    /// Follows the player, by its own speed, to all cells at which it can be, so many turns after it was seen at its cell. It
    /// goes on from the turns for which the player was followed before, or begins anew where they are too many; and `steps`
    /// counts each time that the set grows by a step. A set that no step makes larger doesn't grow.
    pub fn advance<L: Ledger>(
        &mut self,
        session: &Session,
        player: PlayerId,
        missed: u32,
        steps: &mut Steps<L>,
    )
        requires dilated { IsDilationOf session.now self.old }
        requires player { player < players_of session.now }
        requires missed { missed ≤ session.now.turns }
        ensures dilated { IsDilationOf session.now self.new }
        ensures seen { self.new.cells ≡ self.old.cells }
        ensures kept { turns_of self.new.kept ≡ slice_set (turns_of self.old.kept) player missed }
        ensures turns { kept_of (turns_of self.new.kept) player ≡ missed }
        ensures counted { steps.old ≤ steps.new }
        ensures cost { steps.new ≤ steps.old + most_growths (seat_of session.now player).speed (kept_of (turns_of self.old.kept) player) missed }
    {
        let at = usize::from(player);
        let cell = self.cells[at];
        follow(&mut self.kept[at], session, player, cell, missed, steps);
    }

    /// Advances, and counts in a ledger that no one reads.
    fn advance_in<L: Ledger>(
        &mut self,
        session: &Session,
        player: PlayerId,
        missed: u32,
        blank: Blank,
    )
        requires name { blank.name ≡ L.name }
        requires parts { blank.parts ≡ L.parts }
        requires some { 0 < blank.parts }
        requires dilated { IsDilationOf session.now self.old }
        requires player { player < players_of session.now }
        requires missed { missed ≤ session.now.turns }
        ensures dilated { IsDilationOf session.now self.new }
        ensures seen { self.new.cells ≡ self.old.cells }
        ensures kept { turns_of self.new.kept ≡ slice_set (turns_of self.old.kept) player missed }
        ensures turns { kept_of (turns_of self.new.kept) player ≡ missed }
    {
        let mut steps = Steps::<L>::new(blank);
        self.advance(session, player, missed, &mut steps);
    }

    /// Advances where nothing is counted.
    pub fn grow_to(&mut self, session: &Session, player: PlayerId, missed: u32)
        requires dilated { IsDilationOf session.now self.old }
        requires player { player < players_of session.now }
        requires missed { missed ≤ session.now.turns }
        ensures dilated { IsDilationOf session.now self.new }
        ensures seen { self.new.cells ≡ self.old.cells }
        ensures kept { turns_of self.new.kept ≡ slice_set (turns_of self.old.kept) player missed }
        ensures turns { kept_of (turns_of self.new.kept) player ≡ missed }
    {
        self.advance_in::<Brand>(session, player, missed, Blank::new(1));
    }

    /// The cells to which the player was followed: those at which it can be, so many turns after it was last seen as `kept`
    /// tells.
    pub fn reached(&self, _session: &Session, player: PlayerId) -> &CellSet
        requires dilated { IsDilationOf _session.now self.now }
        requires player { player < players_of _session.now }
        ensures { result.now ≡ kept_set _session.now self.now player }
    {
        &self.kept[usize::from(player)].reached
    }
}
