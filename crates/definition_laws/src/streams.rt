//! Laws of a player's stream, and of what is known of it.

ghost use Rattle.definition_laws.specs.Streams.{PlacesAlternate, EachPlaceIsAFrames, KnownIsBelowTheNext, NothingFitsTheNext, HeldIsTheFirst, ResolvedIsTheFirst, OthersAreKnownByReceipt, ResolvedAreLegal, KnownStays};
ghost use Rattle.definition_laws.specs.Openings.{OpeningsDiffer};
ghost use Rattle.definition_laws.specs.Own.{OwnFramesAreThere, OwnStreamIsChosen, OwnFramesAlternate, MadeInOrder, OnlyTheNextIsAllowed};

/// The order of a stream.
pub fn places()
    ensures alternate { PlacesAlternate }
    ensures each { EachPlaceIsAFrames }
{}

/// What is known of a player, by its frames and their places.
pub fn known_streams()
    ensures below { KnownIsBelowTheNext }
    ensures next { NothingFitsTheNext }
    ensures first { HeldIsTheFirst }
    ensures first_move { ResolvedIsTheFirst }
    ensures receipt { OthersAreKnownByReceipt }
    ensures legal { ResolvedAreLegal }
    ensures stays { KnownStays }
{}

/// Different openings have different bytes.
pub fn openings()
    ensures { OpeningsDiffer }
{}

/// The owner's own stream, by what it chose.
pub fn own_stream()
    ensures there { OwnFramesAreThere }
    ensures chosen { OwnStreamIsChosen }
    ensures alternate { OwnFramesAlternate }
{}

/// The frames that the owner made.
pub fn made_frames()
    ensures order { MadeInOrder }
    ensures next { OnlyTheNextIsAllowed }
{}
