//! What holds of all numbers and of their matches, as laws of the definitions: functions that do nothing, whose clauses are proved.

ghost use Rattle.make_command.specs.Summaries.{MatchesEnd};
ghost use Rattle.make_command.specs.Words.{NumbersAreTold};

/// The match of each number comes to its end: each of the 8 players chose for each of the 200 turns, each frame was delivered to each other
/// player once that lacked it, and the logs of all together accuse nobody. So a match has never more steps than are taken of it.
pub fn matches()
    ensures { MatchesEnd }
{}

/// Words say a number exactly where they are one word, the number's decimal digits, and the number is below 2 to the power of 64.
pub fn numbers()
    ensures { NumbersAreTold }
{}
