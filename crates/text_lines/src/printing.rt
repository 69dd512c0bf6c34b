//! A line is written.

ghost use Rattle.std.specs.Prelude.{◌≡◌, ◌++◌, OnOk};
ghost use Rattle.text_lines.specs.Lines.{line_of};

use std::alloc::{AllocError, Global};

/// Writes the line of this name and these numbers behind what `out` has. An error comes only where memory runs out; of `out` it says
/// nothing.
pub fn put_line(
    alloc: Global,
    out: &mut Vec<u8>,
    name: &[u8],
    numbers: &[u32],
) -> Result<(), AllocError>
    ensures { OnOk result (out.new.items ≡ out.old.items ++ line_of name.now numbers.now) }
{
    out.extend_from_slice(name)?;
    for number in numbers {
        let field = format!(in alloc; " {number}")?;
        out.extend_from_slice(field.as_bytes())?;
    }
    out.push(b'\n')?;
    Ok(())
}
