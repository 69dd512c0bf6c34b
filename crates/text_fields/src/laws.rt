//! Laws of fields: functions that do nothing, whose clauses are proved.

ghost use Rattle.text_fields.specs.Laws.{NumbersAreRead, NumbersAreSpelled, LoneNumbersAreRead, LoneNumbersAreSpelled, CellsAreRead, CellsAreSpelled, NoncesAreRead, NoncesAreSpelled, FramesAreRead, FramesAreSpelled, BytesAreRead, BytesAreSpelled, ChoicesAreRead, ChoicesAreSpelled};

/// A number before a space is read as that number, whatever stands behind it, and what is read stands there.
pub fn numbers_are_told()
    ensures read { NumbersAreRead }
    ensures spelled { NumbersAreSpelled }
{}

/// A text that is a number is read as that number, and a text that is read as a number is its one form.
pub fn lone_numbers_are_told()
    ensures read { LoneNumbersAreRead }
    ensures spelled { LoneNumbersAreSpelled }
{}

/// A cell in front of a text is read as that cell, whatever stands behind it, and what is read stands there.
pub fn cells_are_told()
    ensures read { CellsAreRead }
    ensures spelled { CellsAreSpelled }
{}

/// A nonce's digits are read as that nonce, and a text that is read as a nonce is its digits.
pub fn nonces_are_told()
    ensures read { NoncesAreRead }
    ensures spelled { NoncesAreSpelled }
{}

/// The digits of a frame's bytes are read as that frame, and a text that is read as a frame is the digits of its bytes.
pub fn frames_are_told()
    ensures read { FramesAreRead }
    ensures spelled { FramesAreSpelled }
{}

/// The digits of one byte or more are read as those bytes, and a text that is read as bytes is their digits.
pub fn bytes_are_told()
    ensures read { BytesAreRead }
    ensures spelled { BytesAreSpelled }
{}

/// The text of a move and a nonce is read as these, and a text that is read as a choice is its text.
pub fn choices_are_told()
    ensures read { ChoicesAreRead }
    ensures spelled { ChoicesAreSpelled }
{}
