//! Laws of pilots: functions that do nothing, whose clauses are proved.

ghost use Rattle.pilots.specs.Laws.{FirstFaultsAreFirst, FrontsDecide, MovesAreRead};

/// The first `MOVES_FRONT` bytes of a moves text decide what it says, or which of its lines is the first at fault.
pub fn fronts_decide()
    ensures { FrontsDecide }
{}

/// What `print_moves` writes for as many moves as there are turns is read as these moves.
pub fn moves_are_read()
    ensures { MovesAreRead }
{}

/// The lines before the one that is named say moves, and this one says none, is missing, or is one too many.
pub fn first_faults_are_first()
    ensures { FirstFaultsAreFirst }
{}
