//! The session of a text.

use grid_world::{Session, read_session};
use std::alloc::Global;
use std::test::Fail;

/// The session of a text that is one.
pub fn session_of(alloc: Global, text: &[u8]) -> Result<Session, Fail> {
    match read_session(alloc, text) {
        Err(_) => Err("no session".into()),
        Ok(session) => Ok(session),
    }
}
