//! Fields of bytes that begin at a place.

ghost use Rattle.std.specs.Prelude.{◌≡◌, ◌+◌, ◌≤◌, length, drop, slice_get, slice_range, option_map};
ghost use Rattle.std.specs.Int.{w16, w32, to_be_bytes, from_be_bytes};
ghost use Rattle.byte_fields.specs.Fields.{bytes_at, overwritten};

/// The bytes from this place on, none where the place is past the end.
pub(crate) fn behind(bytes: &[u8], at: usize) -> &[u8]
    ensures { result.now ≡ drop at bytes.now }
{
    if at < bytes.len() {
        &bytes[at..]
    } else {
        &bytes[bytes.len()..]
    }
}

/// The byte at this place. None comes exactly where the bytes end before it.
pub fn take_u8(bytes: &[u8], at: usize) -> Option<u8>
    ensures { result ≡ slice_get bytes.now at }
{
    if at < bytes.len() {
        Some(bytes[at])
    } else {
        None
    }
}

/// The `N` bytes that begin at this place. None comes exactly where fewer stand from the place on.
pub fn take_array<const N: usize>(bytes: &[u8], at: usize) -> Option<[u8; N]>
    ensures { result ≡ bytes_at N bytes.now at }
{
    let rest = behind(bytes, at);
    if rest.len() < N {
        return None;
    }
    let mut array = [0; N];
    array.copy_from_slice(&rest[..N]);
    Some(array)
}

/// The `N` bytes that begin at this place, all of which stand.
pub fn array_at<const N: usize>(bytes: &[u8], at: usize) -> [u8; N]
    requires { at + N ≤ length bytes.now }
    ensures { result ≡ slice_range bytes.now at (at + N) }
{
    let mut array = [0; N];
    array.copy_from_slice(&bytes[at..at + N]);
    array
}

/// The number in the two bytes that begin at this place, the high byte first. None comes exactly where fewer than two
/// bytes stand from the place on.
pub fn take_u16(bytes: &[u8], at: usize) -> Option<u16>
    ensures { result ≡ option_map (from_be_bytes w16) (bytes_at 2 bytes.now at) }
{
    let field: [u8; 2] = take_array(bytes, at)?;
    Some(u16::from_be_bytes(field))
}

/// The number in the four bytes that begin at this place, the high byte first. None comes exactly where fewer than four
/// bytes stand from the place on.
pub fn take_u32(bytes: &[u8], at: usize) -> Option<u32>
    ensures { result ≡ option_map (from_be_bytes w32) (bytes_at 4 bytes.now at) }
{
    let field: [u8; 4] = take_array(bytes, at)?;
    Some(u32::from_be_bytes(field))
}

/// Writes the bytes over those that begin at this place. All others stay.
pub fn put_slice(out: &mut [u8], at: usize, from: &[u8])
    requires { at + length from.now ≤ length out.old }
    ensures { out.new ≡ overwritten out.old at from.now }
{
    out[at..at + from.len()].copy_from_slice(from);
}

/// Writes the number over the two bytes that begin at this place, the high byte first. All others stay.
pub fn put_u16(out: &mut [u8], at: usize, value: u16)
    requires { at + 2 ≤ length out.old }
    ensures { out.new ≡ overwritten out.old at (to_be_bytes w16 value) }
{
    put_slice(out, at, &value.to_be_bytes());
}

/// Writes the number over the four bytes that begin at this place, the high byte first. All others stay.
pub fn put_u32(out: &mut [u8], at: usize, value: u32)
    requires { at + 4 ≤ length out.old }
    ensures { out.new ≡ overwritten out.old at (to_be_bytes w32 value) }
{
    put_slice(out, at, &value.to_be_bytes());
}
