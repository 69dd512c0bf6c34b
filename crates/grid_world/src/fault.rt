//! Why a session text is refused.

ghost use Rattle.std.specs.Prelude.{◌≡◌};
ghost use Rattle.grid_world.specs.declared.fault.SessionFault.TheVariants.{Memory};

use definitions::SessionRule;
use std::alloc::{AllocError, AllocFailed};

/// Why a text gave no session.
#[derive(Clone, Copy, Debug, PartialEq, Eq)]
pub enum SessionFault {
    /// The text is none of a session. Lines are counted from 1, and a missing line has the number that it would have.
    At {
        /// The first line that breaks a rule.
        line: u32,
        /// The first rule that the line breaks.
        what: SessionRule,
    },
    /// Memory ran out. The text may be one of a session or not.
    Memory,
}

impl From<AllocError> for SessionFault {
    ghost from_gives = { λ _ e. e ≡ Memory };

    fn from(_e: AllocError) -> SessionFault {
        SessionFault::Memory
    }
}

impl<T: Drop> From<AllocFailed<T>> for SessionFault {
    ghost from_gives = { λ _ e. e ≡ Memory };

    fn from(_e: AllocFailed<T>) -> SessionFault {
        SessionFault::Memory
    }
}
