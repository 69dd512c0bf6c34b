//! The front of a file.

ghost use Rattle.std.specs.Prelude.{◌≡◌, ◌<◌, IfOk, length};
ghost use Rattle.line_io.specs.declared.fronts.FrontFault.TheVariants.{NoMemory};
ghost use Rattle.line_io.specs.Fronts.{ReadsFront, TakesPiece, front_bytes};

use station::{Pull, Shelf};
use std::alloc::{AllocError, Global};

/// How many bytes are asked for at a time.
const CHUNK: usize = 65_536;

/// Why a file's front was not read.
#[derive(Clone, Copy, Debug, PartialEq, Eq)]
pub enum FrontFault {
    /// Memory was wanting.
    NoMemory,
    /// The shelf failed. A name that isn't there is such a fault.
    Failed,
}

impl From<AllocError> for FrontFault {
    ghost from_gives = { λ _ e. e ≡ NoMemory };

    fn from(_e: AllocError) -> FrontFault {
        FrontFault::NoMemory
    }
}

/// A buffer for pieces of files, of 65,536 bytes. An error comes where memory is wanting.
pub fn piece_buffer(alloc: Global) -> Result<Vec<u8>, AllocError>
    ensures { IfOk result (λ buf. 0 < length buf.items) }
{
    vec![in alloc; 0u8; CHUNK]
}

/// Reads the bytes of a file where the text ends, at most as many as the buffer has room for, and
/// puts them after the text. Says how many they are: none where the file has ended.
fn take_piece<H: Shelf>(
    shelf: &mut H,
    name: &[u8],
    text: &mut Vec<u8>,
    buf: &mut [u8],
) -> Result<usize, FrontFault>
    requires { 0 < length buf.old }
    ensures { TakesPiece (H.state shelf.old) (H.state shelf.new) name.now text.old.items text.new.items (length buf.old) result }
{
    match shelf.read_at(name, text.len() as u64, buf) {
        Pull::Failed => Err(FrontFault::Failed),
        Pull::Ended => Ok(0),
        Pull::Took(count) => {
            text.extend_from_slice(&buf[..count])?;
            Ok(count)
        }
    }
}

/// Reads the first bytes of a file, at most `limit` of them, piece by piece. The memory grows with
/// what is read. `NoMemory` comes where memory was wanting, and `Failed` where the shelf failed.
pub fn read_front<H: Shelf>(
    alloc: Global,
    shelf: &mut H,
    name: &[u8],
    limit: usize,
) -> Result<Vec<u8>, FrontFault>
    requires { 0 < limit }
    ensures { ReadsFront (H.state shelf.old) (H.state shelf.new) name.now limit (front_bytes (λ text. text.items) result) }
{
    let mut text = Vec::new(alloc);
    let mut chunk = piece_buffer(alloc)?;
    'chunks: while text.len() < limit {
        chunk.truncate(limit - text.len());
        if take_piece(shelf, name, &mut text, chunk.as_mut_slice())? == 0 {
            return Ok(text);
        }
    }
    Ok(text)
}
