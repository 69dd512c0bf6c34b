//! Texts in buffers, and texts to a sink.

ghost use Rattle.std.specs.Prelude.{◌≡◌, ◌≤◌, length};
ghost use Rattle.line_io.specs.Texts.{Puts};

use arrayvec::ArrayVec;
use station::{Push, Sink};

/// The sink failed, and holds only a first part of the text.
#[derive(Clone, Copy, Debug, PartialEq, Eq)]
pub struct SinkFault;

/// The text that is these bytes, in a buffer with room for `N` of them.
pub fn text_of<const N: usize>(bytes: &[u8]) -> ArrayVec<u8, N>
    requires { length bytes.now ≤ N }
    ensures { result.items ≡ bytes.now }
{
    let mut text = ArrayVec::new();
    text.try_extend_from_slice(bytes).unwrap();
    text
}

/// Writes the bytes, all of them unless the sink fails. An empty text is written without a call of
/// the sink. An error comes exactly where the sink failed.
pub fn put<O: Sink>(out: &mut O, bytes: &[u8]) -> Result<(), SinkFault>
    ensures { Puts (O.state out.old) (O.state out.new) bytes.now result }
{
    let mut rest = bytes;
    while !rest.is_empty() {
        match out.write(rest) {
            Push::Failed => return Err(SinkFault),
            Push::Gave(count) => rest = &rest[count..],
        }
    }
    Ok(())
}
