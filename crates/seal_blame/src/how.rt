//! What a sealed frame shows that its player didn't make.

ghost use Rattle.std.specs.Prelude.{◌≡◌, ◌<◌, length, slice_get, Some, IsTrue};
ghost use Rattle.commitment.specs.Spelling.{FitsFrame};
ghost use Rattle.definitions.specs.Openings.{FitsCell};
ghost use Rattle.definitions.specs.Logs.{turn_of};
ghost use Rattle.definitions.specs.declared.frames.TurnFrame.{TurnFrame};
ghost use Rattle.definitions.specs.Answers.{place_of};
ghost use Rattle.definition_laws.specs.Members.{Has};
ghost use Rattle.seal_keys.specs.Keys.{root_of};
ghost use Rattle.seal_keys.specs.Seals.{is_valid, seal_len};
ghost use Rattle.seal_blame.specs.Made.{AreMade};
ghost use Rattle.seal_blame.specs.Blames as B;

use crate::differing::first_bit;
use definitions::{Cell, TurnFrame};
use grid_world::Session;
use seal_keys::{Seal, SealKeys, message_of, place_in};

/// What a frame with a valid seal shows that its player didn't make. Bits and heights are counted
/// from 0.
#[derive(Clone, Copy, Debug, PartialEq, Eq)]
pub enum How {
    /// The session's id with the frame's spelling behind it, and with that of the frame that the
    /// player made at its place, are two byte strings with one digest.
    Message,
    /// What the seal's path to the root hashes at this height, and what that of the keys does, are
    /// two byte strings with one digest: at height 0 the 512 public values, above it the two
    /// children of the node of that height.
    Path(u32),
    /// What the seal discloses of this bit, and the secret of the player's keys, are two byte
    /// strings with one digest.
    Value(u32),
    /// What the seal discloses of this bit is a secret of the player's keys that no seal of the
    /// frames that it made discloses.
    Secret(u32),
}

/// A cell's numbers fit their fields.
fn fits_cell(cell: Cell)
    ensures { FitsCell cell }
{
    let _ = (cell.x, cell.y);
}

/// A valid seal is of a turn that is played, and as long as the seals of the session: nothing but
/// that fact.
fn valid_seal_fits(keys: &SealKeys, frame: &TurnFrame, seal: &Seal)
    requires { IsTrue (is_valid keys.now.game (root_of keys.now.game keys.now.seed) frame.now seal.now) }
    ensures turn { turn_of frame.now < keys.now.game.turns }
    ensures length { length seal.now ≡ seal_len keys.now.game }
{
    let _ = seal.bytes();
}

/// The frame's numbers fit their fields, as those of every value of its type do.
fn fits(frame: TurnFrame)
    ensures { FitsFrame frame }
{
    match frame {
        TurnFrame::Commit {
            player,
            turn,
            digest,
        } => {
            let _ = turn;
        }
        TurnFrame::Reveal {
            player,
            turn,
            mv,
            nonce,
        } => {
            let _ = turn;
        }
    }
}

/// The least bit in which the digest differs from the frame's. None where it doesn't differ.
#[tactic(auto, unfolding(crate::specs::Blames::differing_bit))]
fn bit_against(session: &Session, own: &TurnFrame, message: &[u8; 32]) -> Option<u8>
    ensures { result ≡ B.differing_bit session.now (Some own.now) message.now }
{
    let theirs = message_of(session, own);
    if theirs == *message {
        None
    } else {
        Some(first_bit(&theirs, message))
    }
}

/// The least bit in which the digest differs from that of the frame at this place of those made,
/// and 0 where there is no such frame. None where it doesn't differ.
fn differing_bit(
    session: &Session,
    made: &[TurnFrame],
    place: usize,
    message: &[u8; 32],
) -> Option<u8>
    ensures { result ≡ B.differing_bit session.now (slice_get made.now place) message.now }
{
    if place >= made.len() {
        return Some(0);
    }
    bit_against(session, &made[place], message)
}

/// The frame at this place of those made, if there is one, fits its fields, and so does the other
/// one: nothing but that fact.
fn fit(made: &[TurnFrame], place: usize, frame: &TurnFrame)
    ensures own { (f : TurnFrame) → slice_get made.now place ≡ Some f → FitsFrame f }
    ensures frame { FitsFrame frame.now }
{
    fits(*frame);
    if place < made.len() {
        fits(made[place]);
    }
}

/// What the frame shows, by the first cause that holds.
#[tactic(auto, unfolding(crate::specs::Blames::how_of))]
fn first_cause(
    session: &Session,
    keys: &SealKeys,
    made: &[TurnFrame],
    frame: &TurnFrame,
    seal: &Seal,
) -> How
    requires game { session.now ≡ keys.now.game }
    requires turn { turn_of frame.now < keys.now.game.turns }
    requires length { length seal.now ≡ seal_len keys.now.game }
    ensures { result ≡ B.how_of keys.now made.now frame.now seal.now }
{
    let place = place_in(session, frame);
    let message = message_of(session, frame);
    let Some(bit) = differing_bit(session, made, place as usize, &message) else {
        return How::Message;
    };
    if let Some(height) = keys.departure(frame, seal) {
        return How::Path(height);
    }
    if keys.discloses(frame, seal, bit) {
        How::Secret(bit.into())
    } else {
        How::Value(bit.into())
    }
}

/// What a frame shows that the player of these keys didn't make, with a valid seal under their
/// root: the first cause that holds, in the order of [`How`]. `made` are the frames that the player
/// made in fair play, by place. The call takes no memory.
pub fn blame_frame(
    session: &Session,
    keys: &SealKeys,
    made: &[TurnFrame],
    frame: &TurnFrame,
    seal: &Seal,
) -> How
    requires game { session.now ≡ keys.now.game }
    requires made { AreMade keys.now.game keys.now.player made.now }
    requires new { Has made.now frame.now → ⊥ }
    requires sealed { IsTrue (is_valid keys.now.game (root_of keys.now.game keys.now.seed) frame.now seal.now) }
    ensures how { result ≡ B.how_of keys.now made.now frame.now seal.now }
    ensures shown { B.ShowsSo keys.now made.now frame.now seal.now result }
{
    session.facts();
    valid_seal_fits(keys, frame, seal);
    let place = place_in(session, frame);
    fit(made, place as usize, frame);
    first_cause(session, keys, made, frame, seal)
}
