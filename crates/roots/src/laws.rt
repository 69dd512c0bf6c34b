//! Laws of roots: functions that do nothing, whose clauses are proved.

ghost use Rattle.roots.specs.Laws.{RootsAreRead, RootsAreSpelled, RootsFitTheFront};
ghost use Rattle.roots.specs.Cases.{NamesTheLineAtFault, TellsTwoRoots};

/// The text of the roots of a session's players is read as these roots, and a text that is read as
/// roots is their text. Each has room in the first `ROOTS_FRONT` bytes of a file.
pub fn roots_are_told()
    ensures read { RootsAreRead }
    ensures spelled { RootsAreSpelled }
    ensures short { RootsFitTheFront }
{}

/// Worked texts of two players, computed: one that is told, and changes of it of which each has a
/// line at fault.
pub fn worked_texts()
    ensures told { TellsTwoRoots }
    ensures faults { NamesTheLineAtFault }
{}
