//! Laws of rosters: functions that do nothing, whose clauses are proved.

ghost use Rattle.rosters.specs.Laws.{RostersFitTheFront};

/// Each text of a roster has room in the first `ROSTER_FRONT` bytes of a file.
pub fn rosters_fit()
    ensures { RostersFitTheFront }
{}
