//! The digests of frames.

ghost use Rattle.std.specs.Prelude.{◌≡◌};
ghost use Rattle.definitions.specs.Held as H;
ghost use Rattle.definitions.specs.Findings as F;

use commitment::digest_of;
use definitions::{Digest, Opening, TurnFrame};
use grid_world::Session;

/// The digest that a commitment carries, or that of the opening that a reveal shows.
#[tactic(auto, unfolding(definitions::specs::Held::digest_of))]
pub fn frame_digest(session: &Session, frame: &TurnFrame) -> Digest
    ensures { result ≡ H.digest_of session.now frame.now }
{
    match *frame {
        TurnFrame::Commit { digest, .. } => digest,
        TurnFrame::Reveal {
            player,
            turn,
            mv,
            nonce,
        } => digest_of(
            session.id(),
            &Opening {
                player,
                turn,
                mv,
                nonce,
            },
        ),
    }
}

/// Whether the two frames have one digest.
pub fn same_digest(session: &Session, first: &TurnFrame, second: &TurnFrame) -> bool
    ensures { result ≡ F.same_digest session.now first.now second.now }
{
    frame_digest(session, first) == frame_digest(session, second)
}
