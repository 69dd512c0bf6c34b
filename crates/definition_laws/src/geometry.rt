//! Laws of walks, spheres and strikes.

ghost use Rattle.definition_laws.specs.Walks.{ReachesIsWalk, ReachesGrows};
ghost use Rattle.definition_laws.specs.Distances.{LegalMovesAreWalks, SpheresAreDistances, MeetingsAreDistances};
ghost use Rattle.definition_laws.specs.Strikes.{WhoIsHitMeets};

/// What the reaching test means.
pub fn walks()
    ensures exact { ReachesIsWalk }
    ensures grows { ReachesGrows }
{}

/// What legal moves, spheres of influence and meetings are, by walks and distances.
pub fn influence()
    ensures moves { LegalMovesAreWalks }
    ensures spheres { SpheresAreDistances }
    ensures meetings { MeetingsAreDistances }
{}

/// Whom a strike can hit.
pub fn strikes_meet()
    ensures { WhoIsHitMeets }
{}
