//! The rule by which a player waits.

ghost use Rattle.std.specs.Prelude.{◌≡◌, ◌≢◌, ◌<◌, ◌≤◌, ◌∷◌, ◌++◌, [], ℕ, List, length, IsTrue, IfOk, slice_set, slice_index_or};
ghost use Rattle.definitions.specs.declared.logs.Entry.{Entry};
ghost use Rattle.definitions.specs.World.{players_of, is_open};
ghost use Rattle.definitions.specs.Needs as N;
ghost use Rattle.dilation.specs.Dilated.{starts_of, cell_of};
ghost use Rattle.wait_rule.specs.Waiting as W;
ghost use Rattle.wait_rule.specs.Waiting.{IsStage};
ghost use Rattle.wait_rule.specs.Shown.{AreViews, AreLastCells, IsStageOf};
ghost use Rattle.wait_rule.specs.Spheres.{IsMeeting, IsSight, Stays, cells_in};

use crate::meeting::{Meeting, hinders, look_from};
use crate::needs::NeedList;
use crate::views::{Stage, View};
use cell_set::CellSet;
use definitions::limits::MOST_NEEDS;
use definitions::{Cell, Need, PlayerId, What};
use dilation::Dilation;
use grid_world::Session;
use std::alloc::{AllocError, Global};
use std::marker::Model;

/// The cell at which each player of a session was last seen, and room to find who is waited for.
#[derive(Drop)]
pub struct WaitRule {
    meeting: Meeting,
}

impl Model for WaitRule {
    ghost use Rattle.wait_rule.specs.declared.meeting.Meeting.{Meeting};

    ghost Value = { Meeting };

    ghost view = { λ r. r.meeting };
}

/// Whether the next own frame waits for anyone at all: the commitments to the first turns don't.
fn waits(session: &Session, stage: Stage) -> bool
    ensures { result ≡ W.waits session.now stage }
{
    match stage {
        Stage::Commit { turn, last: _ } => session.ahead() <= turn,
        Stage::Reveal { turn: _, at: _ } => true,
        Stage::After => true,
    }
}

/// What is needed of the player.
fn need_of(session: &Session, stage: Stage, q: PlayerId, view: View) -> Need
    requires stage { IsStage session.now stage }
    requires waits { IsTrue (W.waits session.now stage) }
    ensures { result ≡ W.need_of session.now stage q view }
{
    let (turn, what) = match stage {
        Stage::Commit { turn, last: _ } => (turn - session.ahead(), What::Reveal),
        Stage::Reveal { turn, at: _ } => (turn, What::Commit),
        Stage::After => (session.turns() - 1, What::Reveal),
    };
    Need {
        player: q,
        turn,
        next: view.next,
        what,
    }
}

/// Adds the player's need, where it is another one and hinders the next own frame.
fn add_need(
    meeting: &mut Meeting,
    session: &Session,
    me: PlayerId,
    stage: Stage,
    q: PlayerId,
    view: View,
    out: &mut NeedList,
)
    requires meeting { IsMeeting session.now meeting.old }
    requires player { q < players_of session.now }
    requires stage { IsStage session.now stage }
    requires waits { IsTrue (W.waits session.now stage) }
    requires own { IsSight session.now me stage meeting.old.own.cells }
    requires room { length out.old < MOST_NEEDS }
    ensures stays { Stays session.now meeting.old meeting.new }
    ensures needs { out.new ≡ out.old ++ W.need_if session.now me stage q view (cell_of meeting.old.dilation.cells q) }
{
    if q == me {
        return;
    }
    if hinders(meeting, session, me, stage, q, view) {
        out.push(need_of(session, stage, q, view));
    }
}

/// Adds the needs of all other players that hinder the next own frame.
fn add_needs(
    meeting: &mut Meeting,
    session: &Session,
    me: PlayerId,
    stage: Stage,
    views: &[View],
    out: &mut NeedList,
)
    requires meeting { IsMeeting session.now meeting.old }
    requires stage { IsStage session.now stage }
    requires waits { IsTrue (W.waits session.now stage) }
    requires own { IsSight session.now me stage meeting.old.own.cells }
    requires views { length views.now ≡ players_of session.now }
    requires none { out.old ≡ [] }
    ensures stays { Stays session.now meeting.old meeting.new }
    ensures needs { out.new ≡ W.needs_of session.now me stage views.now meeting.old.dilation.cells }
{
    for q in 0..session.players() {
        let view = views[usize::from(q)];
        add_need(meeting, session, me, stage, q, view, out);
    }
}

impl WaitRule {
    /// The rule for this session, each of whose players stands at its start. The session is not kept: each call is handed the one
    /// for which the rule was made.
    pub fn new(alloc: Global, session: &Session) -> Result<WaitRule, AllocError>
        ensures rule { IfOk result (IsMeeting session.now) }
        ensures cells { IfOk result (λ r. cells_in r ≡ starts_of session.now) }
    {
        let dilation = Dilation::new(alloc, session)?;
        let grid = session.grid();
        let own = CellSet::empty(alloc, grid.width(), grid.height())?;
        let theirs = CellSet::empty(alloc, grid.width(), grid.height())?;
        Ok(WaitRule {
            meeting: Meeting {
                dilation,
                own,
                stood: None,
                theirs,
            },
        })
    }

    /// A turn of the player is resolved, which led it to this cell.
    pub fn resolved(&mut self, session: &Session, player: PlayerId, cell: Cell)
        requires rule { IsMeeting session.now self.old }
        requires player { player < players_of session.now }
        requires open { IsTrue (is_open session.now.grid cell) }
        ensures rule { IsMeeting session.now self.new }
        ensures cells { cells_in self.new ≡ slice_set (cells_in self.old) player cell }
    {
        // what can be reached from the cell where it stood already is still right
        if self.meeting.dilation.cell(player) != cell {
            self.meeting.dilation.resolved(session, player, cell);
        }
    }

    /// Makes `out` the list of those for whom player `me` waits, by rising player, where its own frames have come to
    /// this stage and this is known of each player. What is said of `me` itself doesn't matter. A player that isn't
    /// known well enough is waited for where its sphere, dilated by the turns that aren't known of it, meets one's own.
    pub fn needs(
        &mut self,
        session: &Session,
        me: PlayerId,
        stage: Stage,
        views: &[View],
        out: &mut NeedList,
    )
        requires rule { IsMeeting session.now self.old }
        requires player { me < players_of session.now }
        requires stage { IsStage session.now stage }
        requires views { length views.now ≡ players_of session.now }
        ensures rule { IsMeeting session.now self.new }
        ensures cells { cells_in self.new ≡ cells_in self.old }
        ensures computed { out.new ≡ W.needs_of session.now me stage views.now (cells_in self.old) }
        ensures needs { (h : List Entry) → AreViews session.now me h views.now → AreLastCells session.now me h (cells_in self.old)
            → IsStageOf session.now me h stage → out.new ≡ N.needs session.now me h }
    {
        out.clear();
        if waits(session, stage) {
            look_from(&mut self.meeting, session, me, stage);
            add_needs(&mut self.meeting, session, me, stage, views, out);
        }
    }
}
