//! Laws of logs as they grow, and of what they show.

ghost use Rattle.definition_laws.specs.Growth.{HonestLogsAreWellFormed, SettledStays, MeetingsOnlyEnd, PrefixesAreHonest, PermitsStay, HonestLogsGrow};
ghost use Rattle.definition_laws.specs.Own.{ChosenInOrder, ChoosesOneAtATime};
ghost use Rattle.definition_laws.specs.Receipts.{RevealsStandBehind, ResolvedOpens, ResolvedWereReceived};
ghost use Rattle.definition_laws.specs.Accusing.{FindingsAreListed, FindingsAreTheLeastPairs, DifferentMovesAreFound, CollisionsAreTwoStrings, HonestPlayersAreNotNamed, AcceptedMovesAreChosen};
ghost use Rattle.definition_laws.specs.Fits.{CleanLogsFit, LogsFit, RoomIsSmall};

/// What stays true as a log grows.
pub fn growth()
    ensures honest { HonestLogsGrow }
    ensures prefixes { PrefixesAreHonest }
    ensures meetings { MeetingsOnlyEnd }
    ensures permits { PermitsStay }
    ensures well_formed { HonestLogsAreWellFormed }
    ensures settled { SettledStays }
{}

/// How many entries an honest log has at most.
pub fn logs_fit()
    ensures clean { CleanLogsFit }
    ensures one_more { LogsFit }
    ensures small { RoomIsSmall }
{}

/// What the owner chose, turn after turn.
pub fn choices()
    ensures order { ChosenInOrder }
    ensures one { ChoosesOneAtATime }
{}

/// A reveal stands after the commitments of all who meet, and what is resolved opens what is held.
pub fn fair_play()
    ensures behind { RevealsStandBehind }
    ensures opens { ResolvedOpens }
    ensures received { ResolvedWereReceived }
{}

/// What becomes of a player whose own log is honest, and of whom others got only what it made.
pub fn honest_players()
    ensures unnamed { HonestPlayersAreNotNamed }
    ensures accepted { AcceptedMovesAreChosen }
{}

/// What findings are, and whom they name.
pub fn accusations()
    ensures listed { FindingsAreListed }
    ensures least { FindingsAreTheLeastPairs }
    ensures found { DifferentMovesAreFound }
    ensures collisions { CollisionsAreTwoStrings }
{}
