//! The digest that a frame's seal is for, its bits, and the frame's place.

ghost use Rattle.std.specs.Prelude.{◌≡◌, ◌<◌};
ghost use Rattle.definitions.specs.Logs.{turn_of};
ghost use Rattle.definitions.specs.Answers as A;
ghost use Rattle.seal_keys.specs.Keys.{places};
ghost use Rattle.seal_keys.specs.Seals as S;

use commitment::put_turn;
use definitions::{Place, TurnFrame};
use grid_world::Session;
use sha2::{Digest as _, Sha256};

/// The bit of this number of a digest. Bit 0 is the highest bit of the first byte, bit 255 the
/// lowest of the last.
#[tactic(auto, unfolding(crate::specs::Seals::bit_of))]
pub fn bit_of(message: &[u8; 32], bit: u8) -> u8
    ensures value { result ≡ S.bit_of message.now bit }
    ensures within { result < 2 }
{
    (message[usize::from(bit / 8)] >> (7 - bit % 8)) & 1
}

/// The digest of a frame in its session, which its seal is for: SHA-256 of the session's id and
/// the frame's spelling behind it.
#[tactic(auto, unfolding(crate::specs::Seals::message))]
pub fn message_of(session: &Session, frame: &TurnFrame) -> [u8; 32]
    ensures { result ≡ S.message session.now frame.now }
{
    let mut spelling = [0; 64];
    let count = put_turn(frame, &mut spelling);
    let mut hasher = Sha256::new();
    hasher.update(session.id().as_slice());
    hasher.update(&spelling[..count]);
    hasher.finalize()
}

/// The place, counted from 0, of a frame whose turn is played. There are two places a turn.
#[tactic(auto, unfolding(definitions::specs::Answers::place_of))]
pub fn place_in(session: &Session, frame: &TurnFrame) -> Place
    requires { turn_of frame.now < session.now.turns }
    ensures place { result ≡ A.place_of session.now frame.now }
    ensures within { result < places session.now }
{
    match *frame {
        TurnFrame::Commit { turn, .. } => session.commit_place(turn),
        TurnFrame::Reveal { turn, .. } => session.reveal_place(turn),
    }
}
