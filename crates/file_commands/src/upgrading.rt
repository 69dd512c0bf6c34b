//! A session's text in version 2.

ghost use Rattle.std.specs.Prelude.{◌≡◌, IfOk, Ok, false};
ghost use Rattle.grid_world.specs.Text as T;
ghost use Rattle.run_frame.specs.Frame.{Ran};
ghost use Rattle.file_commands.specs.Upgrade.{upgrade_answer};

use grid_world::{Session, print_session, upgraded};
use line_io::put;
use run_frame::Status;
use station::Sink;
use std::alloc::{AllocError, Global};

/// The session's text in version 2.
fn upgraded_text(alloc: Global, session: &Session) -> Result<Vec<u8>, AllocError>
    ensures { IfOk result (λ text. text.items ≡ T.session_text (T.upgraded session.now)) }
{
    let session = upgraded(alloc, session)?;
    print_session(alloc, &session)
}

/// Prints the session's text in version 2. Nothing is written where memory is wanting.
pub fn upgrade<O: Sink>(alloc: Global, session: &Session, out: &mut O) -> Status
    ensures { Ran (O.state out.old) (O.state out.new) (upgrade_answer (Ok session.now)) false ⊥ ⊥ result }
{
    let Ok(text) = upgraded_text(alloc, session) else {
        return Status::NoMemory;
    };
    match put(out, &text) {
        Ok(()) => Status::Done,
        Err(fault) => Status::from(fault),
    }
}
