//! Worked histories, computed by the checker: functions that do nothing, whose clauses are proved.

ghost use Rattle.loop_rules.specs.Worked.{BeginsByTheRules, GreetsByTheRules, TakesFramesByTheRules, RevealsByTheRules, AsksOnceForAFarFrame, ShutsForABadByte, ReadsNoMoreThanAHello, ShutsTheFormerOfOneName, EndsAtAFailedKeep, ReadsBeforeItPolls, SyncsBeforeItPolls, PollsForAReason, LeavesWhatWasSynced, GoesOnFromAnOlderLog, AnswersAHello, MovesByAWant};

/// A match of two goes by the rules: the log is begun and the first move committed, the other player is dialled and greeted, frames go
/// both ways, the own one in two pieces, and a far frame is answered by one WANT. Each poll of it is licensed.
pub fn a_match_of_two()
    ensures begins { BeginsByTheRules }
    ensures greets { GreetsByTheRules }
    ensures takes { TakesFramesByTheRules }
    ensures reveals { RevealsByTheRules }
    ensures asks { AsksOnceForAFarFrame }
{}

/// A socket is shut for a bad byte at its front, and where another one was named alike later. Before its HELLO no 57th byte is read.
pub fn sockets_that_are_shut()
    ensures bad { ShutsForABadByte }
    ensures long { ReadsNoMoreThanAHello }
    ensures alike { ShutsTheFormerOfOneName }
{}

/// A keep that fails ends the history.
pub fn a_keep_that_fails()
    ensures { EndsAtAFailedKeep }
{}

/// A poll is licensed where a frame is missed or own bytes wait, and not with bytes unread, nor with an own frame that was not synced.
pub fn polls()
    ensures reads { ReadsBeforeItPolls }
    ensures syncs { SyncsBeforeItPolls }
    ensures reason { PollsForAReason }
{}

/// A crash leaves what was synced, and perhaps a part of what was not. An entry that was never kept is a lucky tail.
pub fn a_crash()
    ensures { LeavesWhatWasSynced }
{}

/// The entries taken over are kept and synced before the loop listens. A HELLO is answered on a socket that was accepted, and a WANT moves the
/// cursor behind the frame that was begun.
pub fn older_logs_and_answers()
    ensures older { GoesOnFromAnOlderLog }
    ensures hello { AnswersAHello }
    ensures want { MovesByAWant }
{}
