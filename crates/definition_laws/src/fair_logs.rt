//! The law of fair play.

ghost use Rattle.definition_laws.specs.FairPlay.{HonestLogsAreFair};

/// A log each of whose entries was allowed after those before it is one of fair play.
pub fn honest_logs_are_fair()
    ensures { HonestLogsAreFair }
{}
