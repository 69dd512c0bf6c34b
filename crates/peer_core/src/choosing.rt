//! The next frame and the next choice, as a peer's tables say.

ghost use Rattle.std.specs.Prelude.{◌≡◌, ◌&&◌};
ghost use Rattle.peer_core.specs.Choosing as C;

use commitment::frame_of;
use definitions::{Opening, Place, TurnFrame, What};
use grid_world::Session;

/// The next frame, where the log has no finding, no one is waited for, and its turn is chosen.
pub(crate) fn next_of(
    session: &Session,
    clean: bool,
    no_needs: bool,
    openings: &[Opening],
    made: Place,
) -> Option<TurnFrame>
    ensures { result ≡ C.next_of session.now (clean && no_needs) openings.now made }
{
    if !clean || !no_needs {
        return None;
    }
    match session.slot_at(made) {
        None => None,
        Some(slot) => match openings.get(slot.turn as usize) {
            None => None,
            Some(opening) => Some(frame_of(session.id(), slot.what, opening)),
        },
    }
}

/// Whether a move may be chosen.
pub(crate) fn chooses(
    session: &Session,
    clean: bool,
    no_needs: bool,
    made: Place,
    chosen: usize,
) -> bool
    ensures { result ≡ C.chooses session.now (clean && no_needs) made chosen }
{
    match session.slot_at(made) {
        None => false,
        Some(slot) => match slot.what {
            What::Commit => clean && no_needs && chosen <= slot.turn as usize,
            What::Reveal => false,
        },
    }
}
