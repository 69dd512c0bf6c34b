//! What C holds of what makes and judges seals.

ghost use Rattle.std.specs.Prelude.{◌≡◌, Option, Some, None, IsTrue, MatchOption};
ghost use Rattle.std.specs.Option.{is_some};
ghost use Rattle.lethwyrn_c.specs.Sealers.{Sealing};
ghost use Rattle.lethwyrn_c.specs.contracts.sealer.Sealer.{the_row};
ghost use Rattle.lethwyrn_c.specs.Holding.{told};

use crate::loose::Loose;
use crate::sealer::Sealer;
use std::alloc::Global;
use std::marker::Model;
use std::mem::replace;
use std::ptr::null_mut;

/// A sealer in a block of its own, or none. C keeps the two fields as they were written.
#[repr(C)]
#[derive(Drop)]
pub struct SealsHandle {
    at: *mut u8,
    live: bool,
    ghost value: { Option Sealing },
}

impl Model for SealsHandle {
    ghost also_owns = { λ h. told the_row h.at h.live h.value };
}

impl SealsHandle {
    /// A handle without a sealer.
    pub(crate) fn none() -> SealsHandle
        ensures value { result.value ≡ None }
    {
        SealsHandle {
            at: null_mut(),
            live: false,
        }
    }

    /// A handle of what was a box.
    fn of(sealer: Loose<Sealer>) -> SealsHandle
        ensures value { result.value ≡ Some sealer.value }
    {
        let Loose { at } = sealer;
        SealsHandle {
            at: at as *mut u8,
            live: true,
        }
    }

    /// Whether there is a sealer.
    fn tell(self) -> (bool, SealsHandle)
        ensures live { result.0 ≡ is_some self.value }
        ensures same { result.1.value ≡ self.value }
    {
        let SealsHandle { at, live } = self;
        let same = SealsHandle { at, live };
        (live, same)
    }

    /// What was a box, where there is a sealer.
    fn into_loose(self) -> Loose<Sealer>
        requires value { IsTrue (is_some self.value) }
        ensures value { Some result.value ≡ self.value }
    {
        let SealsHandle { at, live: _ } = self;
        Loose {
            at: at as *mut Sealer,
        }
    }
}

/// Takes the sealer out of the handle, if it has one.
pub(crate) fn open(alloc: Global, handle: &mut SealsHandle) -> Option<Box<Sealer>>
    ensures taken { MatchOption result (handle.old.value ≡ None) (λ sealer. handle.old.value ≡ Some sealer.value) }
    ensures left { handle.new.value ≡ None }
{
    let (live, old) = replace(handle, SealsHandle::none()).tell();
    if live {
        Some(old.into_loose().into_box(alloc))
    } else {
        None
    }
}

/// Puts a sealer into the handle.
pub(crate) fn shut(handle: &mut SealsHandle, sealer: Box<Sealer>)
    ensures { handle.new.value ≡ Some sealer.value }
{
    *handle = SealsHandle::of(Loose::of(sealer));
}
