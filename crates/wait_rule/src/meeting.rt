//! Whose sphere of influence meets one's own, and who hinders the next frame.

ghost use Rattle.std.specs.Prelude.{◌≡◌, ◌<◌, ◌≤◌, ◌∷◌, [], IsTrue, length};
ghost use Rattle.definitions.specs.World.{players_of, is_open};
ghost use Rattle.definitions.specs.Walk.{reach_of};
ghost use Rattle.definitions.specs.Sphere as D;
ghost use Rattle.definitions.specs.Sphere.{have_common};
ghost use Rattle.dilation.specs.Dilated.{cell_of};
ghost use Rattle.wait_rule.specs.Waiting as W;
ghost use Rattle.wait_rule.specs.Waiting.{IsStage};
ghost use Rattle.wait_rule.specs.Spheres.{IsMeeting, IsSight, Stays};

use crate::views::{Stage, View};
use cell_set::CellSet;
use definitions::{Cell, PlayerId};
use dilation::Dilation;
use grid_world::Session;
use influence::{grow_strike, sphere_of};

/// A player on a cell.
#[derive(Clone, Copy)]
pub(crate) struct Stand {
    pub player: PlayerId,
    pub cell: Cell,
}

/// Where the players were last seen, with room for the two spheres that are compared.
#[derive(Drop)]
pub(crate) struct Meeting {
    pub dilation: Dilation,
    // the sphere of the player who asks
    pub own: CellSet,
    // from where it was taken, if it was
    pub stood: Option<Stand>,
    // the sphere of another
    pub theirs: CellSet,
}

/// The player who asks stands at this cell. The stages of a turn ask from one cell, whose sphere is taken once.
fn stand_at(meeting: &mut Meeting, session: &Session, me: PlayerId, cell: Cell)
    requires meeting { IsMeeting session.now meeting.old }
    requires player { me < players_of session.now }
    requires open { IsTrue (is_open session.now.grid cell) }
    ensures meeting { IsMeeting session.now meeting.new }
    ensures dilation { meeting.new.dilation ≡ meeting.old.dilation }
    ensures own { meeting.new.own.cells ≡ D.sphere_of session.now me (cell ∷ []) }
{
    if let Some(stood) = meeting.stood {
        if stood.player == me && stood.cell == cell {
            return;
        }
    }
    meeting.theirs.set_one(cell);
    sphere_of(&mut meeting.own, &meeting.theirs, session, me);
    meeting.stood = Some(Stand { player: me, cell });
}

/// Takes the own sphere from the stage that the own frames have come to.
pub(crate) fn look_from(meeting: &mut Meeting, session: &Session, me: PlayerId, stage: Stage)
    requires meeting { IsMeeting session.now meeting.old }
    requires player { me < players_of session.now }
    requires stage { IsStage session.now stage }
    requires waits { IsTrue (W.waits session.now stage) }
    ensures meeting { IsMeeting session.now meeting.new }
    ensures dilation { meeting.new.dilation ≡ meeting.old.dilation }
    ensures own { IsSight session.now me stage meeting.new.own.cells }
{
    match stage {
        Stage::Commit { turn: _, last } => stand_at(meeting, session, me, last),
        Stage::Reveal { turn: _, at } => stand_at(meeting, session, me, at),
        Stage::After => {}
    }
}

/// Whether the player's sphere, so many turns after it was last seen, has a cell in common with the own sphere. The walk of
/// that sphere is one turn more of the walk by which the player is followed: so the set is followed for that turn too, which it
/// keeps, and a strike from it is the sphere. The turns that are asked for rise from stage to stage, by one at the most, until
/// the player is seen elsewhere: so the set only grows by what the next turn adds, and not at all where they are asked for again.
fn meets(meeting: &mut Meeting, session: &Session, q: PlayerId, missed: u32) -> bool
    requires meeting { IsMeeting session.now meeting.old }
    requires player { q < players_of session.now }
    requires missed { missed < session.now.turns }
    ensures stays { Stays session.now meeting.old meeting.new }
    ensures meets { result ≡ have_common meeting.old.own.cells
        (D.sphere_of session.now q (reach_of session.now q missed (cell_of meeting.old.dilation.cells q ∷ []))) }
{
    session.facts();
    meeting.dilation.grow_to(session, q, missed + 1);
    meeting
        .theirs
        .copy_from(meeting.dilation.reached(session, q));
    grow_strike(&mut meeting.theirs, session, q);
    meeting.own.meets(&meeting.theirs)
}

/// Whether the next own frame can't be made because of this player. Its sphere is asked for only where what is known of
/// it does not answer.
pub(crate) fn hinders(
    meeting: &mut Meeting,
    session: &Session,
    _me: PlayerId,
    stage: Stage,
    q: PlayerId,
    view: View,
) -> bool
    requires meeting { IsMeeting session.now meeting.old }
    requires player { q < players_of session.now }
    requires stage { IsStage session.now stage }
    requires waits { IsTrue (W.waits session.now stage) }
    requires own { IsSight session.now _me stage meeting.old.own.cells }
    ensures stays { Stays session.now meeting.old meeting.new }
    ensures hinders { result ≡ W.hinders session.now _me stage q view (cell_of meeting.old.dilation.cells q) }
{
    match stage {
        Stage::Commit { turn, last: _ } => {
            let missing = turn - session.ahead();
            view.resolved <= missing && meets(meeting, session, q, missing - view.resolved)
        }
        Stage::Reveal { turn, at: _ } => {
            let held = turn < view.commits;
            view.resolved <= turn && !held && meets(meeting, session, q, turn - view.resolved)
        }
        Stage::After => view.resolved < session.turns(),
    }
}
