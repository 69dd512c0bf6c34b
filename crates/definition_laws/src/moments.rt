//! Laws of what a player does next, and for whom it waits.

ghost use Rattle.definition_laws.specs.Growth.{CleanWithoutFrames, NothingKnownWithoutFrames};
ghost use Rattle.definition_laws.specs.Advancing.{AdvancingEnds, NothingIsLeftToMake, AdvancingIsHonest, AdvancesByTheNext, AdvancingFindsNothing, StandsInOneWay, ProgressTells, ProgressIsCaught};
ghost use Rattle.definition_laws.specs.Waiting.{WaitsForThoseWhoHinder, ChoosesWhereAllowed};
ghost use Rattle.definition_laws.specs.Groups.{WaitedForAreBehind, AllThatCameCounts, NoGroupWaitsForItself};

/// The frames that the owner makes by itself.
pub fn advancing()
    ensures ends { AdvancingEnds }
    ensures nothing { NothingIsLeftToMake }
    ensures honest { AdvancingIsHonest }
    ensures steps { AdvancesByTheNext }
    ensures findings { AdvancingFindsNothing }
{}

/// Who is waited for, and when the owner may choose.
pub fn waiting()
    ensures frames { WaitsForThoseWhoHinder }
    ensures choices { ChoosesWhereAllowed }
{}

/// How an owner stands that made all that it may, and what progress says of it.
pub fn standings()
    ensures one { StandsInOneWay }
    ensures tells { ProgressTells }
    ensures caught { ProgressIsCaught }
{}

/// Who is waited for, and that no group of honest players waits for itself.
pub fn standstill()
    ensures behind { WaitedForAreBehind }
    ensures counts { AllThatCameCounts }
    ensures group { NoGroupWaitsForItself }
{}

/// What is known where no frame was received.
pub fn silence()
    ensures clean { CleanWithoutFrames }
    ensures nothing { NothingKnownWithoutFrames }
{}
