//! Laws of whole runs: functions that do nothing, whose clauses are proved.

ghost use Rattle.datagram_loop.specs.Laws.{BeginningsAreTold, PlaysAreTold, BeginningsAreRuns, PlaysGoOn};

/// The history of a beginning, and of all plays after it, is one of a run by the rules: all laws
/// of `post_rules` hold of it.
pub fn runs_are_told()
    ensures begun { BeginningsAreTold }
    ensures played { PlaysAreTold }
{}

/// A beginning makes a whole run, and each play goes on with it: its log is the peer's, its own moves
/// and nonces are the chooser's from the first turn on, and it is fair. What was given, received and
/// polled is in it as `post_rules` has it of every run.
pub fn runs_are_whole()
    ensures begun { BeginningsAreRuns }
    ensures played { PlaysGoOn }
{}
