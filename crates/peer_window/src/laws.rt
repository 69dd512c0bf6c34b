//! Laws of windows and logs: functions that do nothing, whose clauses are proved.

ghost use Rattle.peer_window.specs.Logged.{ReceivedAreBelow, ReceivedWithAnother, ReceivedWithOneMore, WindowsAnswerAsTheLog, WindowsShowTheLog};

/// A window that was offered what a log got from its player shows and answers what the log does.
pub fn windows_stand_for_logs()
    ensures shows { WindowsShowTheLog }
    ensures answers { WindowsAnswerAsTheLog }
{}

/// What a log got from a player, entry by entry: a window that was offered it stays one that was, as the log grows.
pub fn received_grows()
    ensures below { ReceivedAreBelow }
    ensures one_more { ReceivedWithOneMore }
    ensures another { ReceivedWithAnother }
{}
