//! Laws of turns: functions that do nothing, whose clauses are proved.

ghost use Rattle.playout.specs.Laws.{LegalMovesArePlayed, MissingMovesDoNotMatter, OwnTurnsCountAlike, OwnTurnsScoreAsLockstep, PlayersStandByTheirMoves};

/// A player's own turns, against the moves of all players, count the hits that their turns count for it. Moves may be missing
/// of players that the player neither hits nor is hit by.
pub fn own_turns_are_turns()
    ensures turn { OwnTurnsCountAlike }
    ensures missing { MissingMovesDoNotMatter }
    ensures turns { OwnTurnsScoreAsLockstep }
{}

/// In lockstep each player stands where its own moves lead, and legal lists of moves can be played turn by turn.
pub fn players_follow_their_moves()
    ensures stand { PlayersStandByTheirMoves }
    ensures played { LegalMovesArePlayed }
{}
