//! The laws.

ghost use Rattle.peer_command.specs.Crashes.{CrashesAreSurvived, NothingIsGivenUnsynced};

/// Whenever a run stops, within a call too, and whatever a crash leaves of its log, but for a lucky tail: a peer for the same player goes on from
/// that. Its entries are the first ones of those that the run handed to `keep`, an honest player may have them, and each own frame of which
/// a byte was given on a socket stands among them.
pub fn crashes_are_survived()
    ensures { CrashesAreSurvived }
{}

/// Until the first sync of a run no byte of an own frame is given. So whoever is stopped before it goes on from the log that was taken over, and
/// lacks nothing.
pub fn nothing_is_given_unsynced()
    ensures { NothingIsGivenUnsynced }
{}
