//! Where a seal's path to the root departs from that of a player's keys.

ghost use Rattle.std.specs.Prelude.{◌≡◌, ◌≤◌, ◌<◌, ◌+◌, ◌*◌, ◌++◌, ◌-◌, ◌^◌, length, bytes_eq, if◌then◌else◌};
ghost use Rattle.definitions.specs.Logs.{turn_of};
ghost use Rattle.seal_keys.specs.Departures as D;
ghost use Rattle.seal_keys.specs.Keys as K;
ghost use Rattle.seal_keys.specs.Seals as S;

use crate::checking::{beside, digest_shown, shown_pair};
use crate::keys::SealKeys;
use crate::messages::{bit_of, message_of, place_in};
use crate::seal::Seal;
use crate::tree::tree_height;
use crate::values::{pair_of, part_at, public_pair, secret, sha256_of};
use definitions::{Place, TurnFrame};

/// Whether the bytes are the same.
fn same_pair(a: &[u8; 64], b: &[u8; 64]) -> bool
    ensures { result ≡ bytes_eq a.now b.now }
{
    a == b
}

/// Whether the public values that a seal for the digest shows are those of the place.
fn shows_publics(seed: &[u8; 32], place: Place, message: &[u8; 32], seal: &[u8]) -> bool
    requires { 16384 ≤ length seal.now }
    ensures { result ≡ bytes_eq (S.shown message.now seal.now) (K.publics seed.now place) }
{
    for i in 0..256u16 {
        let bit = i as u8;
        if !same_pair(
            &shown_pair(message, seal, bit),
            &public_pair(seed, place, bit),
        ) {
            return false;
        }
    }
    true
}

/// The height here, or the last one before where the bytes are the same here.
fn later(same: bool, here: u32, before: Option<u32>) -> Option<u32>
    ensures { result ≡ (if same then before else Some here) }
{
    if same { before } else { Some(here) }
}

impl SealKeys {
    /// The children, of this height, of the node of this index one height above.
    fn children(&self, height: u32, index: u32) -> [u8; 64]
        requires height { height < K.tree_height self.now.game }
        requires index { 2 * index + 1 < 2 ^ (K.tree_height self.now.game - height) }
        ensures { result ≡ K.node_of self.now.game self.now.seed height (2 * index) ++ K.node_of self.now.game self.now.seed height (2 * index + 1) }
    {
        pair_of(
            &self.node(height, 2 * index),
            &self.node(height, 2 * index + 1),
        )
    }

    /// The greatest height, counted from 0, at which the seal's path to the root and that of the
    /// keys hash different bytes: at height 0 the 512 public values of the frame's place, above it
    /// the two children of the node of that height. None where they hash the same throughout.
    /// The frame's turn is played, and the seal is as long as the session's seals. The call takes
    /// no memory.
    pub fn departure(&self, frame: &TurnFrame, seal: &Seal) -> Option<u32>
        requires turn { turn_of frame.now < self.now.game.turns }
        requires length { length seal.now ≡ S.seal_len self.now.game }
        ensures { result ≡ D.departure self.now.game self.now.seed frame.now seal.now }
    {
        let session = self.session();
        session.facts();
        let place = place_in(session, frame);
        let message = message_of(session, frame);
        let bytes = seal.bytes();
        let shown = shows_publics(self.seed(), place, &message, bytes);
        let mut last = later(shown, 0, None);
        let mut own = digest_shown(&message, bytes);
        let mut index = place;
        for h in 0..tree_height(session) {
            let theirs = beside(index, &own, &part_at(bytes, 512 + h as usize));
            index /= 2;
            last = later(same_pair(&theirs, &self.children(h, index)), h + 1, last);
            own = sha256_of(&theirs);
        }
        last
    }

    /// Whether what the seal discloses of this bit is the secret of the keys: of the frame's place,
    /// of the bit, and of the bit's value in the frame's digest. The frame's turn is played, and
    /// the seal is as long as the session's seals. The call takes no memory.
    pub fn discloses(&self, frame: &TurnFrame, seal: &Seal, bit: u8) -> bool
        requires turn { turn_of frame.now < self.now.game.turns }
        requires length { length seal.now ≡ S.seal_len self.now.game }
        ensures { result ≡ D.discloses self.now.game self.now.seed frame.now seal.now bit }
    {
        let session = self.session();
        let place = place_in(session, frame);
        let value = bit_of(&message_of(session, frame), bit);
        part_at(seal.bytes(), usize::from(bit)) == secret(self.seed(), place, bit, value)
    }
}
