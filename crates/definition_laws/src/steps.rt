//! Laws of the steps of a match, and of what is answered to a frame.

ghost use Rattle.definition_laws.specs.Answering.{FarIsPastTheWindow, SameStandsInTheLog, NewFramesAreTakenOrStashed, TakenPlacesAreCaught, JoinsAsAnswered};
ghost use Rattle.definition_laws.specs.Stepping.{StepsKeepHonest, RunsKeepHonest, SessionsBeginHonest, SessionsKeepHonest, SessionsKeepAuthentic};
ghost use Rattle.definition_laws.specs.Replies.{StepsAreTheAnswer};

/// What becomes of a frame that comes.
pub fn answers()
    ensures far { FarIsPastTheWindow }
    ensures same { SameStandsInTheLog }
    ensures new { NewFramesAreTakenOrStashed }
    ensures caught { TakenPlacesAreCaught }
    ensures joins { JoinsAsAnswered }
{}

/// What a refusal and the answer to a frame that was taken in say together.
pub fn replies()
    ensures { StepsAreTheAnswer }
{}

/// What may happen to honest logs.
pub fn session_steps()
    ensures steps { StepsKeepHonest }
    ensures runs { RunsKeepHonest }
    ensures begin { SessionsBeginHonest }
    ensures sessions { SessionsKeepHonest }
    ensures authentic { SessionsKeepAuthentic }
{}
