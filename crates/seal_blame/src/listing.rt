//! Whether a frame is among those made.

ghost use Rattle.std.specs.Prelude.{◌≡◌};
ghost use Rattle.seal_blame.specs.Made as M;

use definitions::TurnFrame;
use grid_world::Session;

/// Whether the frames are the same.
fn same_frame(a: &TurnFrame, b: &TurnFrame) -> bool
    ensures { result ≡ M.is_that (Some a.now) b.now }
{
    a == b
}

/// Whether the frame stands at its place among those made.
#[tactic(auto, unfolding(crate::specs::Made::is_made))]
pub(crate) fn is_made(session: &Session, made: &[TurnFrame], frame: &TurnFrame) -> bool
    ensures { result ≡ M.is_made session.now made.now frame.now }
{
    let place = session.place_of(frame);
    if place >= made.len() as u64 {
        return false;
    }
    same_frame(&made[place as usize], frame)
}
