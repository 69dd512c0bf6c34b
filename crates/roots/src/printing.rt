//! The text of roots.

ghost use Rattle.std.specs.Prelude.{◌≡◌, ◌++◌, IfOk, OnOk};
ghost use Rattle.text_lines.specs.Lines.{joined};
ghost use Rattle.roots.specs.Text.{root_line, root_lines, roots_text};

use crate::roots::Roots;
use definitions::PlayerId;
use hex::encode_to_slice;
use itoa::Buffer;
use std::alloc::{AllocError, Global};
use text_lines::put_line;

/// How many digits spell a root.
const ROOT_DIGITS: usize = 64;

/// Writes the line of this root, which is that of the player of this number.
fn put_numbered(out: &mut Vec<u8>, number: usize, root: &[u8; 32]) -> Result<(), AllocError>
    ensures { OnOk result (out.new.items ≡ out.old.items ++ root_line number root.now) }
{
    let mut buffer = Buffer::new();
    let mut digits = [0; ROOT_DIGITS];
    encode_to_slice(root.as_slice(), &mut digits).unwrap();
    out.extend_from_slice(b"root ")?;
    out.extend_from_slice(buffer.format(number).as_bytes())?;
    out.push(b' ')?;
    out.extend_from_slice(&digits)?;
    out.push(b'\n')?;
    Ok(())
}

/// Writes the one line that says this player's root, `root Q HEX` and an LF, at the end of what
/// `out` has. `Q` is the player's number, counted from 0.
///
/// An error comes only where memory runs out; of what `out` then has it says nothing.
pub fn put_root(out: &mut Vec<u8>, player: PlayerId, root: &[u8; 32]) -> Result<(), AllocError>
    ensures { OnOk result (out.new.items ≡ out.old.items ++ root_line player root.now) }
{
    put_numbered(out, usize::from(player), root)
}

/// Writes the lines of these roots, that of player 0 first.
fn put_roots(out: &mut Vec<u8>, roots: &[[u8; 32]]) -> Result<(), AllocError>
    ensures { OnOk result (out.new.items ≡ out.old.items ++ joined (root_lines 0 roots.now)) }
{
    for (number, root) in roots.iter().enumerate() {
        put_numbered(out, number, root)?;
    }
    Ok(())
}

/// The one text of these roots: `roots 1`, a line for each, that of player 0 first, and `end`.
///
/// An error comes only where memory runs out. [`read_roots`](crate::read_roots) reads the text of
/// as many roots as the session has players as these roots again.
pub fn print_roots(alloc: Global, roots: &Roots) -> Result<Vec<u8>, AllocError>
    ensures { IfOk result (λ text. text.items ≡ roots_text roots.now) }
{
    let mut out = Vec::new(alloc);
    put_line(alloc, &mut out, b"roots", &[1])?;
    put_roots(&mut out, roots.as_slice())?;
    put_line(alloc, &mut out, b"end", &[])?;
    Ok(out)
}
