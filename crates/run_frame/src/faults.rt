//! The status that tells of a fault of what lies below.

ghost use Rattle.std.specs.Prelude.{◌≡◌};
ghost use Rattle.run_frame.specs.Faults.{status_of_front, status_of_text};
ghost use Rattle.run_frame.specs.declared.statuses.Status.TheVariants.{NoMemory, OutputFault};

use crate::statuses::{Status, TextName};
use line_io::{FrontFault, SinkFault};
use std::alloc::AllocError;
use text_fields::TextFault;

impl From<AllocError> for Status {
    ghost from_gives = { λ _ s. s ≡ NoMemory };

    fn from(_fault: AllocError) -> Status {
        Status::NoMemory
    }
}

impl From<SinkFault> for Status {
    ghost from_gives = { λ _ s. s ≡ OutputFault };

    fn from(_fault: SinkFault) -> Status {
        Status::OutputFault
    }
}

impl From<FrontFault> for Status {
    ghost from_gives = { λ fault s. s ≡ status_of_front fault };

    fn from(fault: FrontFault) -> Status {
        match fault {
            FrontFault::NoMemory => Status::NoMemory,
            FrontFault::Failed => Status::InputFault,
        }
    }
}

/// The status of a run that ends by this fault of this text: `BadLine` with the first line at fault,
/// or `NoMemory`.
pub fn status_of_text(text: TextName, fault: TextFault) -> Status
    ensures { result ≡ status_of_text text fault }
{
    match fault {
        TextFault::At(line) => Status::BadLine { text, line },
        TextFault::Memory => Status::NoMemory,
    }
}
