//! Laws of histories: functions that do nothing, whose clauses are proved.

ghost use Rattle.loop_rules.specs.Laws.{PrefixesAreHistories, ItemsAreAllowed, AllowedItemsAreAdded, PollsAreLicensed, FailedPollsAreLicensed, LogsAreBegunFirst, FaultsAreLast, FindingsAreLast, ToldGoesOn, GivenIsDue, KeptBytesAreTheLog, KeptIsHonest, RevealsKeptStandBehind, ReceiptsStandBehind, RevealsGivenAreFair};
ghost use Rattle.loop_rules.specs.Runs.{LogsAreRuns};

/// What was told up to some moment is a history: each of its items may come behind those before it, and such an item makes one more.
pub fn histories_grow_by_items()
    ensures prefixes { PrefixesAreHistories }
    ensures items { ItemsAreAllowed }
    ensures added { AllowedItemsAreAdded }
{}

/// What a station tells goes on by each item that may come next, where the sockets that it opens were never used: the view behind it is shown
/// then, and its lines stand as the station tells.
pub fn told_goes_on()
    ensures { ToldGoesOn }
{}

/// Each poll is licensed, whether it is done or fails.
pub fn polls_are_licensed()
    ensures done { PollsAreLicensed }
    ensures failed { FailedPollsAreLicensed }
{}

/// The first item begins a log, or is the failure of that.
pub fn logs_are_begun_first()
    ensures { LogsAreBegunFirst }
{}

/// Behind a failed `listen`, `poll`, `log_to`, `keep` or `sync` nothing stands.
pub fn faults_are_last()
    ensures { FaultsAreLast }
{}

/// While the loop listens, nothing stands behind a log with a finding but a sync of it: no socket is dialled, read, written or shut, no entry
/// kept, and nothing polled.
pub fn findings_are_last()
    ensures { FindingsAreLast }
{}

/// Bytes are given on a socket that was opened, and they are the first ones of those that go out next there: what is left of the frame that was
/// begun, or the front of a HELLO, of a WANT, or of the own frame at the cursor, which was kept and then synced before.
pub fn given_is_due()
    ensures { GivenIsDue }
{}

/// The bytes kept, joined, are those of one log of the session: of the entries that the history shows as kept.
pub fn kept_bytes_are_the_log()
    ensures { KeptBytesAreTheLog }
{}

/// The log kept is one that an honest peer may have, where the entries taken over are. So each reveal in it, and none other is given, stands
/// behind a received commitment of each other player whose sphere met the own one.
pub fn kept_logs_are_honest()
    ensures honest { KeptIsHonest }
    ensures reveals { RevealsKeptStandBehind }
{}

/// Once the entries taken over are kept, the log kept is the protocol's own run: it begins with these, each own frame stands in it as soon as it
/// may be made, and its steps are its own choices and the frames that came, in their order.
pub fn logs_are_runs()
    ensures { LogsAreRuns }
{}

/// A frame that the log has as received stands in the entries taken over, or bytes were taken earlier that made it whole, on a socket on which a
/// HELLO of its player had come before, with the pass that the roster wants of it: nobody else's frame is logged as that player's.
pub fn receipts_stand_behind()
    ensures { ReceiptsStandBehind }
{}

/// An own reveal that may be given, of which alone bytes are given, stands behind the receipt of a commitment to its turn from each other
/// player whose sphere met the own one: that commitment was taken over, or bytes were taken earlier that made it whole, on a socket that this
/// player's pass had named.
pub fn reveals_given_are_fair()
    ensures { RevealsGivenAreFair }
{}
