//! Where a seal leads, and whether that is the root.

ghost use Rattle.std.specs.Prelude.{◌≡◌, ◌≤◌, ◌+◌, ◌*◌, length};
ghost use Rattle.sha2.specs.Sha256.{sha256};
ghost use Rattle.seal_keys.specs.Seals as S;

use crate::messages::{bit_of, message_of, place_in};
use crate::seal::{Seal, seal_len};
use crate::tree::{MOST_HEIGHT, tree_height};
use crate::values::{pair_of, part_at, sha256_of};
use definitions::{Place, TurnFrame};
use grid_world::Session;
use sha2::{Digest as _, Sha256};

/// The two public values of a bit that a seal for the digest shows, that of 0 first.
#[tactic(auto, unfolding(crate::specs::Seals::shown_pair))]
pub(crate) fn shown_pair(message: &[u8; 32], seal: &[u8], bit: u8) -> [u8; 64]
    requires { 16384 ≤ length seal.now }
    ensures { result ≡ S.shown_pair message.now seal.now bit }
{
    let i = usize::from(bit);
    let own = sha256_of(&part_at(seal, i));
    let other = part_at(seal, 256 + i);
    if bit_of(message, bit) == 0 {
        pair_of(&own, &other)
    } else {
        pair_of(&other, &own)
    }
}

/// The digest of the 512 public values that it shows: the leaf to which the seal leads.
pub(crate) fn digest_shown(message: &[u8; 32], seal: &[u8]) -> [u8; 32]
    requires { 16384 ≤ length seal.now }
    ensures { result ≡ sha256 (S.shown message.now seal.now) }
{
    let mut hasher = Sha256::new();
    for bit in 0..256u16 {
        hasher.update(shown_pair(message, seal, bit as u8).as_slice());
    }
    hasher.finalize()
}

/// The node of this index with its sibling, the left one first.
#[tactic(auto, unfolding(crate::specs::Seals::beside))]
pub(crate) fn beside(index: u32, own: &[u8; 32], sibling: &[u8; 32]) -> [u8; 64]
    ensures { result ≡ S.beside index own.now sibling.now }
{
    if index % 2 == 0 {
        pair_of(own, sibling)
    } else {
        pair_of(sibling, own)
    }
}

/// The node of this height to which a seal for this place and digest leads.
pub(crate) fn path_digest(message: &[u8; 32], seal: &[u8], place: Place, height: u32) -> [u8; 32]
    requires small { height ≤ MOST_HEIGHT }
    requires room { 16384 + 32 * height ≤ length seal.now }
    ensures { result ≡ sha256 (S.seal_path message.now seal.now place height) }
{
    let mut own = digest_shown(message, seal);
    let mut index = place;
    for h in 0..height {
        own = sha256_of(&beside(index, &own, &part_at(seal, 512 + h as usize)));
        index /= 2;
    }
    own
}

/// Whether the seal is valid for the frame in the session, under this root: it has the length of
/// the session's seals, the frame's turn is played, and what the seal discloses leads to the root
/// from the leaf of the frame's place. It doesn't ask whose frame it is, and takes no memory.
#[tactic(auto, unfolding(crate::specs::Seals::is_valid))]
pub fn valid(session: &Session, root: &[u8; 32], frame: &TurnFrame, seal: &Seal) -> bool
    ensures { result ≡ S.is_valid session.now root.now frame.now seal.now }
{
    let bytes = seal.bytes();
    if frame.turn() >= session.turns() || bytes.len() != seal_len(session) {
        return false;
    }
    let message = message_of(session, frame);
    let place = place_in(session, frame);
    path_digest(&message, bytes, place, tree_height(session)) == *root
}
