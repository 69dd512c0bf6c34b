//! Worked cases of the definitions, each computed.

ghost use Rattle.definition_laws.specs.Rows.{RefusesMovesByCause, BeginsWithAChoice, LogsChoiceCommitmentReveal, PlaysBlindUntilSpheresMeet, WaitsWhereSpheresMeet, GoesWhereSpheresAreApart, WallsKeepSpheresApart, RunnersAreWaitedForSooner, CommitsTwoAhead, CommitsThreeAhead, PlayersDiffer, EndsDone, TakesAFrameOnce, StashesWhatComesEarly, KeepsAWindowOfEight, GoesOnWhenTheOtherIsKnown, StrikesCostCharge, TakesCommitmentsAhead, KeepsRevealsInOrder, CatchesTwoCommitments, CatchesBadOpenings, CatchesIllegalMoves, CatchesIllegalMovesAhead, FindsTwoFaces};

/// Worked scripts of choices, and whom the first player then waits for.
pub fn worked_choices()
    ensures begins { BeginsWithAChoice }
    ensures logs { LogsChoiceCommitmentReveal }
    ensures blind { PlaysBlindUntilSpheresMeet }
    ensures touch { WaitsWhereSpheresMeet }
    ensures apart { GoesWhereSpheresAreApart }
    ensures walled { WallsKeepSpheresApart }
    ensures runner { RunnersAreWaitedForSooner }
    ensures ahead { CommitsTwoAhead }
    ensures further_ahead { CommitsThreeAhead }
    ensures differ { PlayersDiffer }
    ensures ends { EndsDone }
    ensures moves { RefusesMovesByCause }
{}

/// Worked scripts of received frames, and what becomes of them.
pub fn worked_frames()
    ensures once { TakesAFrameOnce }
    ensures early { StashesWhatComesEarly }
    ensures window { KeepsAWindowOfEight }
    ensures goes_on { GoesOnWhenTheOtherIsKnown }
    ensures strikes { StrikesCostCharge }
    ensures ahead { TakesCommitmentsAhead }
    ensures reveals { KeepsRevealsInOrder }
{}

/// Worked scripts of frames that break the protocol, and what is found.
pub fn worked_findings()
    ensures commitments { CatchesTwoCommitments }
    ensures openings { CatchesBadOpenings }
    ensures moves { CatchesIllegalMoves }
    ensures moves_ahead { CatchesIllegalMovesAhead }
    ensures faces { FindsTwoFaces }
{}
