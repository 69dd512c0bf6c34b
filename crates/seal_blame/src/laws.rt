//! Laws of blame: functions that do nothing, whose clauses are proved.

ghost use Rattle.seal_blame.specs.Laws.{HonestLogsAreMadeSo, ShownFramesAreNotMade};

/// Frames that show that a player broke the protocol are not all among those that a player makes
/// who plays fair.
pub fn shown_frames_are_not_made()
    ensures { ShownFramesAreNotMade }
{}

/// The frames that the owner of an honest log made are made in fair play.
pub fn honest_logs_are_made_so()
    ensures { HonestLogsAreMadeSo }
{}
