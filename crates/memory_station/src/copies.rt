//! Bytes copied from a place on into a buffer.

ghost use Rattle.std.specs.Prelude.{◌≡◌, ◌≤◌, length, take, drop, min};

/// Copies as many of the bytes from that place on as fit.
pub(crate) fn copy_some(from: &[u8], at: usize, buf: &mut [u8]) -> usize
    requires { at ≤ length from.now }
    ensures count { result ≡ min (length buf.old) (length (drop at from.now)) }
    ensures bytes { take result buf.new ≡ take result (drop at from.now) }
{
    let rest = &from[at..];
    let count = buf.len().min(rest.len());
    buf[..count].copy_from_slice(&rest[..count]);
    count
}
