//! Laws of whole runs: functions that do nothing, whose clauses are proved.

ghost use Rattle.ready_loop.specs.Laws.{BeginningsAreHistories, RunsAreWhole, SettlingsEndRuns, RoundsEndRuns, RoundsLeadRuns};

/// However a beginning ends, what the station told is a whole history by the rules, of what the loop was given and of the log that it kept.
pub fn beginnings_are_histories()
    ensures { BeginningsAreHistories }
{}

/// Of a loop that was new, was begun and then played, however it ended, the station told one whole history by the rules, of what the loop was
/// given and of the log that it kept. The own choices in that log are those taken over and further ones: of the turns one by one, with the
/// pilot's moves, where it told a plan, and with the nonces that the generator gave, one behind the other.
pub fn runs_are_whole()
    ensures { RunsAreWhole }
{}

/// A run may be put together from rounds and a settling: either ends one, and a round leads one.
pub fn rounds_make_runs()
    ensures settled { SettlingsEndRuns }
    ensures ended { RoundsEndRuns }
    ensures led { RoundsLeadRuns }
{}
