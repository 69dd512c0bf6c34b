//! Frames as keys of an ordered map.

ghost use Rattle.std.specs.Prelude.{◌≡◌};
ghost use Rattle.accuser.specs.Keys as K;

use definitions::{PlayerId, Turn, TurnFrame};

/// A frame as a key: different frames have different keys.
#[derive(Clone, Copy, PartialEq, Eq, PartialOrd, Ord)]
pub(crate) struct FrameKey {
    pub player: PlayerId,
    pub turn: Turn,
    // the digest of a commitment, or the nonce of a reveal
    pub bytes: [u8; 32],
    // the column and the row of the cell that a reveal goes to; none in a commitment
    pub to: Option<(u16, u16)>,
    // those of the cell that it strikes, if it strikes one
    pub strike: Option<(u16, u16)>,
}

/// The frame's key.
pub(crate) fn key_of(frame: &TurnFrame) -> FrameKey
    ensures { result ≡ K.key_of frame.now }
{
    match *frame {
        TurnFrame::Commit {
            player,
            turn,
            digest,
        } => {
            let bytes = digest.bytes;
            FrameKey {
                player,
                turn,
                bytes,
                to: None,
                strike: None,
            }
        }
        TurnFrame::Reveal {
            player,
            turn,
            mv,
            nonce,
        } => {
            let bytes = nonce.bytes;
            FrameKey {
                player,
                turn,
                bytes,
                to: Some((mv.to.x, mv.to.y)),
                strike: mv.strike.map(|cell| (cell.x, cell.y)),
            }
        }
    }
}
