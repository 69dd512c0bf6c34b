//! Frames that are kept at spots.

ghost use Rattle.std.specs.Prelude.{◌≡◌, ◌++◌, ◌∷◌, [], OnOk};
ghost use Rattle.definitions.specs.Findings as D;
ghost use Rattle.evidence.specs.Showing as S;
ghost use Rattle.auditor.specs.Exhibits as X;

use definitions::{Spot, TurnFrame};
use frame_index::Seen;
use std::alloc::AllocError;

/// The frame that is kept with this spot.
pub(crate) fn kept_at(seen: &[Seen], spot: Spot) -> Option<TurnFrame>
    ensures { result ≡ X.kept_at seen.now spot }
{
    seen.iter()
        .find(|one| one.spot.log == spot.log && one.spot.entry == spot.entry)
        .map(|one| one.frame)
}

/// Puts the frame behind the others, if it is there.
fn put(out: &mut Vec<TurnFrame>, frame: Option<TurnFrame>) -> Result<(), AllocError>
    ensures { OnOk result (out.new.items ≡ out.old.items ++ S.if_there frame) }
{
    match frame {
        None => Ok(()),
        Some(frame) => {
            out.push(frame)?;
            Ok(())
        }
    }
}

/// Puts two frames behind the others, as far as they are there.
pub(crate) fn put_both(
    out: &mut Vec<TurnFrame>,
    first: Option<TurnFrame>,
    second: Option<TurnFrame>,
) -> Result<(), AllocError>
    ensures { OnOk result (out.new.items ≡ out.old.items ++ X.both first second) }
{
    put(out, first)?;
    put(out, second)
}

/// Whether both are there, and the first is no commitment.
fn are_swapped(first: Option<TurnFrame>, second: Option<TurnFrame>) -> bool
    ensures { result ≡ X.are_swapped first second }
{
    match first {
        Some(TurnFrame::Reveal { .. }) => second.is_some(),
        _ => false,
    }
}

/// Puts two frames behind the others, as far as they are there, and the commitment first.
pub(crate) fn put_commit_first(
    out: &mut Vec<TurnFrame>,
    first: Option<TurnFrame>,
    second: Option<TurnFrame>,
) -> Result<(), AllocError>
    ensures { OnOk result (out.new.items ≡ out.old.items ++ S.commit_first (X.both first second)) }
{
    if are_swapped(first, second) {
        put_both(out, second, first)
    } else {
        put_both(out, first, second)
    }
}
