//! The parts of a seal are written.

ghost use Rattle.std.specs.Prelude.{◌≡◌, ◌<◌, ◌≤◌, ◌+◌, ◌*◌, ◌^◌, length};
ghost use Rattle.seal_keys.specs.Parts.{joined_below};
ghost use Rattle.seal_keys.specs.Seals as S;
ghost use Rattle.seal_keys.specs.States as T;

use crate::messages::bit_of;
use crate::values::{public_value, secret};
use byte_fields::put_slice;
use definitions::Place;

/// Writes of each bit the secret of its value in the digest.
pub(crate) fn put_disclosed(out: &mut [u8], seed: &[u8; 32], place: Place, message: &[u8; 32])
    requires { length out.old ≡ 8192 }
    ensures { out.new ≡ joined_below (S.disclosed seed.now place message.now) 256 }
{
    for i in 0..256usize {
        let bit = i as u8;
        let value = secret(seed, place, bit, bit_of(message, bit));
        put_slice(out, 32 * i, &value);
    }
}

/// Writes of each bit the public value of its other value.
pub(crate) fn put_others(out: &mut [u8], seed: &[u8; 32], place: Place, message: &[u8; 32])
    requires { length out.old ≡ 8192 }
    ensures { out.new ≡ joined_below (S.other_public seed.now place message.now) 256 }
{
    for i in 0..256usize {
        let bit = i as u8;
        let value = public_value(seed, place, bit, 1 - bit_of(message, bit));
        put_slice(out, 32 * i, &value);
    }
}

/// The index of the other child of a node's parent.
pub(crate) fn sibling_of(index: u32) -> u32
    requires { index < 65536 }
    ensures { result ≡ S.sibling_of index }
{
    if index % 2 == 0 { index + 1 } else { index - 1 }
}

/// Whether something was sealed, and not this digest.
pub(crate) fn is_another(sealed: Option<[u8; 32]>, message: &[u8; 32]) -> bool
    ensures { result ≡ T.is_another sealed message.now }
{
    match sealed {
        None => false,
        Some(other) => other != *message,
    }
}
