//! A session as one of version 2.

ghost use Rattle.std.specs.Prelude.{◌≡◌, IfOk};
ghost use Rattle.grid_world.specs.Answers.{IsReadFrom};
ghost use Rattle.grid_world.specs.Text as T;

use crate::printing::print_session;
use crate::session::Session;
use sha2::{Digest, Sha256};
use std::alloc::{AllocError, Global};

/// The session of version 1 as one of version 2, with this id.
fn in_version_2(alloc: Global, session: &Session, id: [u8; 32]) -> Result<Session, AllocError>
    requires { session.now.version ≡ 1 }
    ensures { IfOk result (λ s. s ≡ record session.now { version = 2; id = id }) }
{
    session.facts();
    let grid = session.grid().copy(alloc)?;
    let seats = Vec::from_slice(alloc, session.seats())?;
    let rules = session.rules();
    Ok(Session::new(2, id, grid, rules, session.turns(), session.ahead(), seats))
}

/// The session as one of version 2, in which all is as before but for the version and the id. Players commit one turn ahead
/// there, as in version 1. A session of version 2 is copied.
///
/// The id is the digest of the session's text in version 2. Frames and logs of the one session are none of the other.
pub fn upgraded(alloc: Global, session: &Session) -> Result<Session, AllocError>
    // Nothing changes but the version and the id, and nothing at all in a session of version 2.
    ensures value { IfOk result (λ s. s ≡ T.upgraded session.now) }
    // A session of version 1 becomes one that its own text says.
    ensures read { session.now.version ≡ 1 → IfOk result (λ s. IsReadFrom s (T.session_text s)) }
{
    if session.version() != 1 {
        return session.copy(alloc);
    }
    session.facts();
    let id = {
        let plain = in_version_2(alloc, session, *session.id())?;
        let text = print_session(alloc, &plain)?;
        Sha256::digest(&text)
    };
    in_version_2(alloc, session, id)
}
