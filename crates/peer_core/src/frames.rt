//! Whether frames are the same.

ghost use Rattle.std.specs.Prelude.{◌≡◌};
ghost use Rattle.definitions.specs.Logs.{frame_eq};

use definitions::TurnFrame;

/// Whether the two are one frame.
pub(crate) fn is_frame(a: &TurnFrame, b: &TurnFrame) -> bool
    ensures { result ≡ frame_eq a.now b.now }
{
    a == b
}
