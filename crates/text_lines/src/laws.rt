//! Laws of lines: functions that do nothing, whose clauses are proved.

ghost use Rattle.text_lines.specs.Laws.{TextsAreTheirLines, LinesAreRead, LinesAreSpelled};

/// A text is its lines, one behind the other.
pub fn texts_are_their_lines()
    ensures { TextsAreTheirLines }
{}

/// A line that is spelled from a name and numbers is read as these, and what is read was spelled so.
pub fn lines_are_told()
    ensures read { LinesAreRead }
    ensures spelled { LinesAreSpelled }
{}
