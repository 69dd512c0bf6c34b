//! Laws of a depositor's histories: functions that do nothing, whose clauses are proved.

ghost use Rattle.deposit_rules.specs.Laws.{PrefixesAreHistories, ItemsAreAllowed, AllowedItemsAreAdded, PollsAreLicensed, FailedPollsAreLicensed, GivenIsHelloAndLog};

/// What was told up to some moment is a history: each of its items may come after those before it,
/// and such an item makes one more.
pub fn histories_grow_by_items()
    ensures prefixes { PrefixesAreHistories }
    ensures items { ItemsAreAllowed }
    ensures added { AllowedItemsAreAdded }
{}

/// Each poll is licensed, whether it is done or fails.
pub fn polls_are_licensed()
    ensures done { PollsAreLicensed }
    ensures failed { FailedPollsAreLicensed }
{}

/// What is given on a socket in all are the first bytes of the HELLO and of the log from the place
/// wanted on, whatever the station answered.
pub fn given_is_hello_and_log()
    ensures { GivenIsHelloAndLog }
{}
