//! Laws of the command: functions that do nothing, whose clauses are proved.

ghost use Rattle.file_commands.specs.AuditLaws.{DifferentMovesAreTold};

/// Where two of the logs resolve one turn of one player by different moves, by frames that they got, the text shows two commitments of
/// that turn, or two byte strings with one digest: as a finding with its evidence, which is read back and to which a judge says yes.
pub fn different_moves_are_told()
    ensures { DifferentMovesAreTold }
{}
