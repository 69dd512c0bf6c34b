//! Laws of logs: functions that do nothing, whose clauses are proved.

ghost use Rattle.session_log.specs.Laws.{EntriesAreRead, EntriesAreSpelled, WritersWriteLogs, LogsAreRead, LogsEndSo, LogPiecesDoNotMatter, GotFramesFit, ReadEntriesAreWellFormed, ReadersGoOn};

/// An entry is read from its text, and an entry that is read has the text.
pub fn entries_are_read()
    ensures read { EntriesAreRead }
    ensures spelled { EntriesAreSpelled }
{}

/// A writer writes the log of the entries that it is given, one after the other.
pub fn writers_write_logs()
    ensures { WritersWriteLogs }
{}

/// The log of entries that the session allows is read as these entries, and then its end. Reading any bytes comes to a last
/// answer. Where it is the end, the bytes are the log of the entries that were read, the session allows them, and the owner
/// is one of its players. Where it is a fault, the bytes begin with the log of the entries that were read, and the fault
/// stands in the bytes behind them, or else the owner's byte is no player's or stands alone.
pub fn logs_are_read()
    ensures read { LogsAreRead }
    ensures ends { LogsEndSo }
{}

/// Where what was read of a log are the player's entries, or none, a reader's writer stands as one
/// that wrote just these, and the reader has used their bytes.
pub fn readers_go_on()
    ensures { ReadersGoOn }
{}

/// In whatever pieces a log comes, the entries that are fed and the end are those that a reader gives for the joined bytes, and
/// the owner is their first byte where that is a player's.
pub fn log_pieces_do_not_matter()
    ensures { LogPiecesDoNotMatter }
{}

/// What is read of a log before its first fault, whatever its bytes, is what its owner may have written, honest or not.
pub fn read_entries_are_well_formed()
    ensures { ReadEntriesAreWellFormed }
{}

/// Each frame that is read of a log as one that was got fits its fields.
pub fn got_frames_fit()
    ensures { GotFramesFit }
{}
