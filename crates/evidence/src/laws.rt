//! Laws of evidence: functions that do nothing, whose clauses are proved.

ghost use Rattle.evidence.specs.Laws.{FindingsAreShown, FramesOfFindingsStand, ShownFramesConvict, IllegalMovesConvict, ShownFramesAreCounted, ShownFramesAreFew, ShownExhibitsAreRead, IllegalExhibitsAreOpenings, OpeningsMakeIllegalExhibits, ExhibitsAreRead, ExhibitsAreSpelled, ExhibitsFitTheFront, FirstFaultsAreFirst};

/// What is found in logs of the session is shown by frames that these logs got: by the two at the finding's spots, and of an
/// illegal move by those with which the turns before it were resolved, too.
pub fn findings_are_shown()
    ensures shown { FindingsAreShown }
    ensures stand { FramesOfFindingsStand }
{}

/// Frames that show two commitments, a bad opening or a collision convict their player in all logs in which they stand.
pub fn shown_frames_convict()
    ensures { ShownFramesConvict }
{}

/// Frames that show an illegal move convict their player, of that turn or of one before it, where one log got all of them and,
/// where players commit more than two turns ahead, the commitments before the reveal of the turn before.
pub fn illegal_moves_convict()
    ensures { IllegalMovesConvict }
{}

/// Two frames show something, or two for each turn up to that of an illegal move. In a session that a text may say these are at most
/// `MOST_EVIDENCE_FRAMES`, and an exhibit that shows something is read back from its text.
pub fn shown_frames_are_counted()
    ensures counted { ShownFramesAreCounted }
    ensures few { ShownFramesAreFew }
    ensures read { ShownExhibitsAreRead }
{}

/// Frames show an illegal move exactly where they are, turn by turn, the commitments to openings of the player and the reveals of these,
/// and the last move is the first that isn't legal.
pub fn illegal_exhibits_are_openings()
    ensures opened { IllegalExhibitsAreOpenings }
    ensures shown { OpeningsMakeIllegalExhibits }
{}

/// The text of an exhibit is read as that exhibit, a text that is read as one is its text, and each has room in the first
/// `EVIDENCE_FRONT` bytes of a file.
pub fn exhibits_are_told()
    ensures read { ExhibitsAreRead }
    ensures spelled { ExhibitsAreSpelled }
    ensures short { ExhibitsFitTheFront }
{}

/// Some exhibit's text begins with the lines before the one that is said to be at fault, and none with that line, too.
pub fn first_faults_are_first()
    ensures { FirstFaultsAreFirst }
{}
