//! A player on a corridor, and how often its set grows at most.

ghost use Rattle.std.specs.Prelude.{◌≡◌, ◌+◌, ◌<◌, ◌≤◌};
ghost use Rattle.definitions.specs.World.{players_of, seat_of};
ghost use Rattle.dilation.specs.Dilated.{kept_of, turns_of};
ghost use Rattle.dilation.specs.Following.{IsDilationOf};

use crate::sessions::session_of;
use definitions::Cell;
use dilation::{Dilation, Steps};
use grid_world::Session;
use std::alloc::Global;
use std::marker::Brand;
use std::process::Abort;
use std::sync::ledger::{Blank, Ledger};
use std::test::Fail;

static CORRIDOR: &[u8] =
    b"playout 1\ngrid 12 1\nrules 1 1 0\ncharge 1 2 1\nturns 8\nplayers 2\nplayer 0 0 0\nplayer 1 9 0\nend\n";

/// Follows player 1, who was followed for no turn yet and goes a step a turn: for 3 turns, which
/// takes 3 growths at most; for 5, which takes 2 more; for 5 again, which takes none; and for 4,
/// which begins anew and takes 4.
fn follow<L: Ledger>(dilation: &mut Dilation, session: &Session, steps: &mut Steps<L>)
    requires dilated { IsDilationOf session.now dilation.old }
    requires speed { (seat_of session.now 1).speed ≡ 1 }
    requires player { 1 < players_of session.now }
    requires turns { 5 ≤ session.now.turns }
    requires fresh { kept_of (turns_of dilation.old.kept) 1 ≡ 0 }
    ensures dilated { IsDilationOf session.now dilation.new }
    ensures cost { steps.new ≤ steps.old + (3 + 2 + 0 + 4) }
    ensures kept { kept_of (turns_of dilation.new.kept) 1 ≡ 4 }
    ensures cells { dilation.new.cells ≡ dilation.old.cells }
{
    dilation.advance(session, 1, 3, steps);
    dilation.advance(session, 1, 5, steps);
    dilation.advance(session, 1, 5, steps);
    dilation.advance(session, 1, 4, steps);
}

/// Follows player 1 of the corridor as above, and then sees it a step on.
fn follow_on_corridor<L: Ledger, R: Abort>(rt: &R, alloc: Global, blank: Blank) -> Result<(), Fail>
    requires name { blank.name ≡ L.name }
    requires parts { blank.parts ≡ L.parts }
    requires some { 0 < blank.parts }
{
    let session = session_of(alloc, CORRIDOR)?;
    let mut dilation = Dilation::new(alloc, &session)?;
    session.facts();
    let speed = session.speed(1);
    let as_written = speed == 1 && session.turns() == 8;
    assert!(rt; as_written);
    assert_eq!(rt; dilation.kept(1), 0);
    let mut steps = Steps::<L>::new(blank);
    follow(&mut dilation, &session, &mut steps);
    assert_eq!(rt; dilation.kept(1), 4);
    // 4 steps from the cell in column 9 lead to column 5, and no further
    let reached = dilation.reached(&session, 1);
    assert!(rt; reached.has(Cell { x: 5, y: 0 }));
    assert!(rt; !reached.has(Cell { x: 4, y: 0 }));
    let aside = Cell { x: 8, y: 0 };
    assert!(rt; session.grid().open(aside));
    dilation.resolved(&session, 1, aside);
    assert_eq!(rt; dilation.kept(1), 0);
    Ok(())
}

#[test]
fn a_set_grows_by_what_it_lacks(rt: HostRuntime) -> Result<(), Fail> {
    follow_on_corridor::<Brand, HostRuntime>(&rt, rt.alloc(), Blank::new(1))
}
