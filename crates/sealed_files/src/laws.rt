//! Laws of files of sealed frames: a function that does nothing, whose clauses are proved.

ghost use Rattle.sealed_files.specs.Laws.{SealedFramesAreFound, SealedFramesAreSpelled};

/// A frame's spelling with a valid seal behind it is read as that sealed frame, whatever follows,
/// and what is read was spelled so.
pub fn sealed_frames_are_told()
    ensures found { SealedFramesAreFound }
    ensures spelled { SealedFramesAreSpelled }
{}
