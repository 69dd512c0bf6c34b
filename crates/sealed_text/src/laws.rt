//! Laws of sealed texts: functions that do nothing, whose clauses are proved.

ghost use Rattle.sealed_text.specs.Laws.{FirstFaultsAreFirst, SealedTextsAreRead, SealedTextsAreSpelled, SealedTextsFitTheFront};
ghost use Rattle.sealed_text.specs.Cases.{NamesTheLineAtFault, TellsOneFrame};

/// The text of a sealed exhibit is read as it, and a text that is read as a sealed exhibit is its
/// text. Each such text has room in the first `SEALED_FRONT` bytes of a file.
pub fn sealed_texts_are_told()
    ensures read { SealedTextsAreRead }
    ensures spelled { SealedTextsAreSpelled }
    ensures short { SealedTextsFitTheFront }
{}

/// With the lines before the one that is said to be at fault some text of a sealed exhibit of the
/// session begins, and with that line, too, none does.
pub fn first_faults_are_first()
    ensures { FirstFaultsAreFirst }
{}

/// Worked texts of one frame, computed: one that is told, and changes of it of which each has a
/// line at fault.
pub fn worked_texts()
    ensures told { TellsOneFrame }
    ensures faults { NamesTheLineAtFault }
{}
