//! Laws of audits: a function that does nothing, whose clause is proved.

ghost use Rattle.log_files.specs.Laws.{DifferentMovesAreReported};

/// Where two of the logs resolve one turn of one player by different moves, by frames that they got, a report on them has a finding of
/// that player and turn, of two commitments or of two byte strings with one digest; [`exhibit`](crate::exhibit) gives what shows it.
pub fn different_moves_are_reported()
    ensures { DifferentMovesAreReported }
{}
