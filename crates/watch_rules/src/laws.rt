//! Laws of a logger's histories: functions that do nothing, whose clauses are proved.

ghost use Rattle.watch_rules.specs.Laws.{PrefixesAreHistories, ItemsAreAllowed, ToldGoesOn, PollsAreLicensed, FailedPollsAreLicensed, GivenIsDue, GivenIsOneWant};

/// What was told up to some moment is a history: each of its items may come after those before it.
pub fn histories_grow_by_items()
    ensures prefixes { PrefixesAreHistories }
    ensures items { ItemsAreAllowed }
{}

/// What a station tells goes on by each item that may come next, where the sockets that it opens
/// were never used.
pub fn told_goes_on()
    ensures { ToldGoesOn }
{}

/// Each poll is licensed, whether it is done or fails.
pub fn polls_are_licensed()
    ensures done { PollsAreLicensed }
    ensures failed { FailedPollsAreLicensed }
{}

/// Bytes are given on a socket that was opened, and they are the first ones of those that are due
/// on it. In all they are the first ones of one WANT, whose place is the number of bytes that had
/// come of its player's log when the socket was named, whatever the station answered: nothing else
/// is ever said to a player.
pub fn given_is_one_want()
    ensures due { GivenIsDue }
    ensures one { GivenIsOneWant }
{}
