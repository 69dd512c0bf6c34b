//! The session of a file.

ghost use Rattle.std.specs.Prelude.{◌≡◌, false};
ghost use Rattle.grid_world.specs.Reading.{game_at};
ghost use Rattle.run_frame.specs.Sessions as S;
ghost use Rattle.run_frame.specs.Sessions.{IsDue, OpensSession, is_shelf_fault};

use crate::statuses::Status;
use definitions::limits::SESSION_FRONT;
use grid_world::{Session, SessionFault, read_session};
use line_io::read_front;
use station::Shelf;
use std::alloc::Global;

/// The session of a text.
fn session_of(alloc: Global, text: &[u8]) -> Result<Session, Status>
    ensures due { IsDue (S.ended_by (game_at text.now)) result }
    ensures calm { is_shelf_fault result ≡ false }
{
    match read_session(alloc, text) {
        Err(SessionFault::Memory) => Err(Status::NoMemory),
        Err(SessionFault::At { line, what }) => Err(Status::BadSession { line, what }),
        Ok(session) => Ok(session),
    }
}

/// The session of the file of that name: its first `SESSION_FRONT` bytes are read. `InputFault` says that the
/// shelf failed, as it does where there is no such file. `BadSession` comes where its text is none, with line
/// and reason, and `NoMemory` where memory was wanting.
#[tactic(auto, unfolding(crate::specs::Sessions::front_of))]
pub fn open_session<H: Shelf>(alloc: Global, shelf: &mut H, name: &[u8]) -> Result<Session, Status>
    ensures { OpensSession (H.state shelf.old) (H.state shelf.new) name.now result }
{
    let text = read_front(alloc, shelf, name, SESSION_FRONT)?;
    session_of(alloc, text.as_slice())
}
