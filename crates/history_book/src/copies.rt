//! Bytes copied from a place into a buffer from a place on.

ghost use Rattle.std.specs.Prelude.{◌≡◌, ◌≤◌, ◌++◌, length, take, drop, min};

/// Copies as many of the first bytes as fit.
pub(crate) fn copy_front(from: &[u8], out: &mut [u8]) -> usize
    ensures count { result ≡ min (length out.old) (length from.now) }
    ensures bytes { out.new ≡ take result from.now ++ drop result out.old }
{
    let count = out.len().min(from.len());
    out[..count].copy_from_slice(&from[..count]);
    count
}

/// Copies as many of the bytes from the one place on as fit into the buffer from the other place on.
pub(crate) fn copy_at(from: &[u8], skip: usize, out: &mut [u8], done: usize) -> usize
    requires skip { skip ≤ length from.now }
    requires done { done ≤ length out.old }
    ensures count { result ≡ min (length (drop done out.old)) (length (drop skip from.now)) }
    ensures bytes { out.new ≡ take done out.old ++ (take result (drop skip from.now) ++ drop result (drop done out.old)) }
{
    let rest = &from[skip..];
    let free = &mut out[done..];
    copy_front(rest, free)
}
