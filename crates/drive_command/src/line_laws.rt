//! Laws of lines: functions that do nothing, whose clauses are proved.

ghost use Rattle.drive_command.specs.LineLaws.{LinesAreRead, LinesAreSpelled};

/// A line that is empty, a comment, `log`, `score`, or spelled from parts that fit their limits is read as what it says, whatever its
/// length.
pub fn lines_are_read()
    ensures { LinesAreRead }
{}

/// A line that is read as a choice, a frame or bytes is the one spelling of these parts, which fit their limits. Each other
/// line is empty, a comment, `log`, `score`, or read as bad, and a line that is read as bad says nothing.
pub fn lines_are_spelled()
    ensures { LinesAreSpelled }
{}
