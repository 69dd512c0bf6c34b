//! A worked history, computed by the checker: functions that do nothing, whose clauses are proved.

ghost use Rattle.loop_laws.specs.Worked.{BringsItsFrames, GivesItsFrames, HandlesItsFrames, CountsWhatIsAskedFor};

/// A match of two says by its items alone which frames came, which were given, and which are
/// logged. What a player asks for counts as given below that place, though no byte of it was.
pub fn a_match_of_two()
    ensures came { BringsItsFrames }
    ensures given { GivesItsFrames }
    ensures handled { HandlesItsFrames }
    ensures counted { CountsWhatIsAskedFor }
{}
