//! The secrets and public values of a place, by the seed alone, and digests of them.

ghost use Rattle.std.specs.Prelude.{◌≡◌, ◌≤◌, ◌<◌, ◌+◌, ◌*◌, ◌++◌, length};
ghost use Rattle.sha2.specs.Sha256.{sha256};
ghost use Rattle.seal_keys.specs.Keys as K;
ghost use Rattle.seal_keys.specs.Parts.{part_of};

use byte_fields::array_at;
use definitions::Place;
use sha2::{Digest as _, Sha256};

/// The bytes of two values, the first one first.
pub(crate) fn pair_of(first: &[u8; 32], second: &[u8; 32]) -> [u8; 64]
    ensures { result ≡ first.now ++ second.now }
{
    let mut bytes = [0; 64];
    bytes[..32].copy_from_slice(first);
    bytes[32..].copy_from_slice(second);
    bytes
}

/// The digest of these bytes.
pub(crate) fn sha256_of(bytes: &[u8]) -> [u8; 32]
    ensures { result ≡ sha256 bytes.now }
{
    Sha256::digest(bytes)
}

/// The 32 bytes of this number, counted from 0, of bytes that are parted so.
pub(crate) fn part_at(bytes: &[u8], number: usize) -> [u8; 32]
    requires { 32 * number + 32 ≤ length bytes.now }
    ensures { result ≡ part_of bytes.now number }
{
    array_at(bytes, 32 * number)
}

/// The bytes that a secret is the digest of.
fn secret_bytes(seed: &[u8; 32], place: Place, bit: u8, value: u8) -> [u8; 38]
    ensures { result ≡ K.secret_bytes seed.now place bit value }
{
    let [a, b, c, d] = place.to_be_bytes();
    let mut bytes = [0; 38];
    bytes[..32].copy_from_slice(seed);
    bytes[32..].copy_from_slice(&[a, b, c, d, bit, value]);
    bytes
}

/// The secret of a place for the value of a bit.
#[tactic(auto, unfolding(crate::specs::Keys::secret))]
pub(crate) fn secret(seed: &[u8; 32], place: Place, bit: u8, value: u8) -> [u8; 32]
    ensures { result ≡ K.secret seed.now place bit value }
{
    sha256_of(&secret_bytes(seed, place, bit, value))
}

/// The public value of a secret, its digest, which anybody may know.
#[tactic(auto, unfolding(crate::specs::Keys::public_value))]
pub(crate) fn public_value(seed: &[u8; 32], place: Place, bit: u8, value: u8) -> [u8; 32]
    ensures { result ≡ K.public_value seed.now place bit value }
{
    sha256_of(&secret(seed, place, bit, value))
}

/// The two public values of a bit, that of 0 first.
#[tactic(auto, unfolding(crate::specs::Keys::public_pair))]
pub(crate) fn public_pair(seed: &[u8; 32], place: Place, bit: u8) -> [u8; 64]
    ensures { result ≡ K.public_pair seed.now place bit }
{
    pair_of(
        &public_value(seed, place, bit, 0),
        &public_value(seed, place, bit, 1),
    )
}

/// The digest of a place's 512 public values. They are hashed as they come, so that none is kept:
/// a pair fills one block of the hasher.
pub(crate) fn digest_of_publics(seed: &[u8; 32], place: Place) -> [u8; 32]
    ensures { result ≡ sha256 (K.publics seed.now place) }
{
    let mut hasher = Sha256::new();
    for bit in 0..256u16 {
        hasher.update(public_pair(seed, place, bit as u8).as_slice());
    }
    hasher.finalize()
}

/// The leaf of this number, where there are so many places. Leaves past the last place are zeros.
#[tactic(auto, unfolding(crate::specs::Keys::leaf_of))]
pub(crate) fn leaf_of(seed: &[u8; 32], count: u32, place: Place) -> [u8; 32]
    ensures { result ≡ K.leaf_of seed.now count place }
{
    if place < count {
        digest_of_publics(seed, place)
    } else {
        [0; 32]
    }
}
