//! A law of frames: a function that does nothing, whose clause is proved.

ghost use Rattle.commitment.specs.Laws.{NoSpellingBeginsAnother};

/// No frame's spelling begins another's, so frames that follow one another are told apart.
pub fn frames_differ()
    ensures { NoSpellingBeginsAnother }
{}
