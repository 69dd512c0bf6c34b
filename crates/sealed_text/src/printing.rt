//! The text of a sealed exhibit.

ghost use Rattle.std.specs.Prelude.{◌≡◌, ◌≤◌, ◌++◌, length, IfOk, OnOk};
ghost use Rattle.text_lines.specs.Lines.{joined};
ghost use Rattle.sealed_text.specs.declared.limits.TheConstants.{MOST_SEALED_FRAMES};
ghost use Rattle.sealed_text.specs.Text.{pair_lines, seal_line, sealed_text};

use definitions::TurnFrame;
use evidence::{put_frame, put_head};
use hex::encode;
use seal_keys::Seal;
use sealed_evidence::SealedExhibit;
use std::alloc::{AllocError, Global};
use text_lines::put_line;

/// Writes the line of a seal, `seal HEX` and an LF. `HEX` spells the bytes of the seal.
fn put_seal(alloc: Global, out: &mut Vec<u8>, seal: &Seal) -> Result<(), AllocError>
    ensures { OnOk result (out.new.items ≡ out.old.items ++ seal_line seal.now) }
{
    let digits = encode(alloc, seal.bytes())?;
    out.extend_from_slice(b"seal ")?;
    out.extend_from_slice(digits.as_bytes())?;
    out.push(b'\n')?;
    Ok(())
}

/// Writes the line of each frame and, right after it, that of the seal at its place.
fn put_pairs(
    alloc: Global,
    out: &mut Vec<u8>,
    frames: &[TurnFrame],
    seals: &[Seal],
) -> Result<(), AllocError>
    requires { length seals.now ≡ length frames.now }
    ensures { OnOk result (out.new.items ≡ out.old.items ++ joined (pair_lines frames.now seals.now)) }
{
    for i in 0..frames.len() {
        put_frame(out, &frames[i])?;
        put_seal(alloc, out, &seals[i])?;
    }
    Ok(())
}

/// The one text of a sealed exhibit: `evidence 2`, the player's number, the turn's, the kind, a
/// line for each frame with its seal on the next line, and `end`.
///
/// An error comes only where memory runs out. [`read_sealed`](crate::read_sealed) reads the text as
/// this exhibit again where that has one frame at least, and seals as long as the session's.
#[tactic(auto, unfolding(crate::specs::Text::sealed_text))]
pub fn print_sealed(alloc: Global, sealed: &SealedExhibit) -> Result<Vec<u8>, AllocError>
    requires few { length sealed.now.exhibit.frames ≤ MOST_SEALED_FRAMES }
    requires each { length sealed.now.seals ≡ length sealed.now.exhibit.frames }
    ensures { IfOk result (λ text. text.items ≡ sealed_text sealed.now) }
{
    let mut out = Vec::new(alloc);
    put_head(alloc, &mut out, 2, sealed.exhibit.head())?;
    let frames = sealed.exhibit.frames.as_slice();
    put_pairs(alloc, &mut out, frames, sealed.seals.as_slice())?;
    put_line(alloc, &mut out, b"end", &[])?;
    Ok(out)
}
