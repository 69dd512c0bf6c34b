//! Laws of the command: functions that do nothing, whose clauses are proved.

ghost use Rattle.file_commands.specs.UpgradeLaws.{UpgradedTextsAreRead, UpgradedSessionsPlayAlike};

/// What is printed of a session that was read is read as that session in version 2.
pub fn upgraded_texts_are_read()
    ensures { UpgradedTextsAreRead }
{}

/// A session and what it is in version 2 have the same ground, turns and players: the same moves are legal, and each player reaches and
/// affects the same cells.
pub fn upgraded_sessions_play_alike()
    ensures { UpgradedSessionsPlayAlike }
{}
