//! Laws of letters: functions that do nothing, whose clauses are proved.

ghost use Rattle.letters.specs.Laws.{LettersAreRead};

/// A letter that is written is read as just that.
pub fn letters_are_read()
    ensures { LettersAreRead }
{}
