//! Laws of keys and seals: functions that do nothing, whose clauses are proved.

ghost use Rattle.seal_keys.specs.Laws.{DeparturesAreTwoStrings, DisclosedValuesHashAlike, HeightsAreLeast, SealsAreValid, SealsDiscloseTheirBits};

/// The tree of a session's keys has a leaf for each place, and no lower tree has.
pub fn heights_are_least()
    ensures { HeightsAreLeast }
{}

/// A frame's seal is valid under the root of its keys. Of each bit it discloses the secret of the
/// bit's value in the frame's digest, and no other.
pub fn seals_are_valid()
    ensures valid { SealsAreValid }
    ensures disclosed { SealsDiscloseTheirBits }
{}

/// Where a valid seal departs from the keys, it gives two byte strings with one digest. Where it
/// doesn't, what it discloses has the digests of the secrets of its place.
pub fn valid_seals_lead_to_secrets()
    ensures departures { DeparturesAreTwoStrings }
    ensures secrets { DisclosedValuesHashAlike }
{}
