//! Laws of histories: functions that do nothing, whose clauses are proved.

ghost use Rattle.post_rules.specs.Laws.{PollsAreLicensed, FailedPollsAreLicensed, FaultsAreLast, GivenIsDue, KeptBytesAreTheLog, KeptIsHonest, ReceiptsStandBehind, RunsAreHonest, GivenStandsBehind, RunsKeepTheLog, MovesAcceptedOpen};
ghost use Rattle.post_rules.specs.Runs.{LogsAreRuns, RunsAreFair};

/// Each poll is licensed, whether it is done or fails.
pub fn polls_are_licensed()
    ensures done { PollsAreLicensed }
    ensures failed { FailedPollsAreLicensed }
{}

/// After a failed `bind`, `poll`, `log_to`, `keep` or `sync` nothing stands.
pub fn faults_are_last()
    ensures { FaultsAreLast }
{}

/// A datagram that is given is the next one of its batch. It goes out only where all that came is
/// handled, and all of the log is kept and synced.
pub fn given_is_due()
    ensures { GivenIsDue }
{}

/// The bytes that one stretch kept, joined, are those of one log of the session: of the entries
/// that it shows as kept.
pub fn kept_bytes_are_the_log()
    ensures { KeptBytesAreTheLog }
{}

/// The log kept is one that an honest peer may have.
pub fn kept_logs_are_honest()
    ensures { KeptIsHonest }
{}

/// A frame that is logged as received came in a good datagram that was taken before.
pub fn receipts_stand_behind()
    ensures { ReceiptsStandBehind }
{}

/// The log kept in a run is one that an honest peer may have.
pub fn runs_are_honest()
    ensures { RunsAreHonest }
{}

/// What is given goes to a player of the roster and tells what the log kept wants of it. The own
/// frame in it is kept and synced. Where that is a reveal, the commitments that its turn needed
/// were received before.
pub fn given_stands_behind()
    ensures { GivenStandsBehind }
{}

/// The bytes kept in a run, joined, are those of one log of the session: of the entries that the
/// history shows as kept.
pub fn runs_keep_the_log()
    ensures { RunsKeepTheLog }
{}

/// A move that the log of a run accepts of another player opens the commitment held, and both
/// frames were received.
pub fn moves_accepted_open()
    ensures { MovesAcceptedOpen }
{}

/// The log kept in a run is the protocol's own run: each own frame stands in it as soon as it may be
/// made, and its steps are its own choices and the frames that came, in their order.
pub fn logs_are_runs()
    ensures { LogsAreRuns }
{}

/// All of this holds of a whole run at once: of its log and receipts at the end, and of what was given
/// and polled at each moment.
pub fn runs_are_fair()
    ensures { RunsAreFair }
{}
