//! Laws of what C has by its calls: functions that do nothing, whose clauses are proved.

ghost use Rattle.lethwyrn_c.specs.Agreeing.{SealsAreTaken};
ghost use Rattle.lethwyrn_c.specs.Convicting.{EvidenceConvicts};
ghost use Rattle.lethwyrn_c.specs.Runs.{RunsAreFair, RunsAreTold, FramesWaitForTheirEntries};

/// Whatever calls were made on a handle, in whatever order: the bytes of the log that were handed out are its first ones, one entry behind
/// the other, and the entries that count as stored end within the bytes that were named as stored.
pub fn logs_are_handed_out()
    ensures { RunsAreTold }
{}

/// A frame that is handed out was made by the peer, its entry was handed out before, and the log up to and with this entry was named as
/// stored.
pub fn frames_wait_for_their_entries()
    ensures { FramesWaitForTheirEntries }
{}

/// Whatever calls were made on a handle: its log is one of a session that a text may say, and what the peer chose and made in it keeps to the
/// protocol.
pub fn logs_are_fair()
    ensures { RunsAreFair }
{}

/// Behind whatever calls, the text that is written of the peer's finding is that of two frames which show it, to anybody who has the session
/// and no log. It is there for each finding but an illegal move.
pub fn evidence_convicts()
    ensures { EvidenceConvicts }
{}

/// Whatever calls were made on a handle with keys: the seal that it writes of a frame is valid under
/// the root that it tells, for every handle of the session with the same text.
pub fn seals_are_taken()
    ensures { SealsAreTaken }
{}
