//! Laws about scripts: a function that does nothing, whose clauses are proved.

ghost use Rattle.drive_command.specs.Laws.{DrivesAreRuns, PeersPlayFair, LinesAreOneStream, LogsAndLinesDecide, TextsTellLogs};

/// How a run over a script ends, what the log shows that is behind its text, that this log is that of the protocol's steps which the
/// lines bring, and that what comes from a player in lines of bytes is one stream of frames.
pub fn scripts()
    ensures decide { LogsAndLinesDecide }
    ensures tell { TextsTellLogs }
    ensures fair { PeersPlayFair }
    ensures streams { LinesAreOneStream }
    ensures runs { DrivesAreRuns }
{}
