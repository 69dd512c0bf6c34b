//! Laws of sealed evidence: functions that do nothing, whose clauses are proved.

ghost use Rattle.sealed_evidence.specs.Laws.{JudgedSealsAreValid};
ghost use Rattle.sealed_evidence.specs.Transferable.{JudgedEvidenceIsTransferable};

/// Where the judge says yes, there are as many seals as frames, each valid under the root of the
/// exhibit's player.
pub fn judged_seals_are_valid()
    ensures { JudgedSealsAreValid }
{}

/// Where the judge says yes of a player who plays fair, the exhibit shows a secret that this
/// player's seals never disclosed, or two byte strings with one digest.
pub fn judged_evidence_is_transferable()
    ensures { JudgedEvidenceIsTransferable }
{}
