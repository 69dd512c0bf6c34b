//! A peer for the player of a file's session, that goes on from the log in another file.

ghost use Rattle.std.specs.Prelude.{◌≡◌, ◌<◌, Option, List, ℕ, Ok, Some, false, option_map};
ghost use Rattle.station.specs.Pieces.{AllGive};
ghost use Rattle.station.specs.Since.{since};
ghost use Rattle.line_io.specs.Fronts.{Fetched};
ghost use Rattle.definitions.specs.World.{players_of};
ghost use Rattle.run_frame.specs.Sessions.{is_shelf_fault};
ghost use Rattle.old_log.specs.Old.{old_fault};
ghost use Rattle.old_log.specs.Begun as B;
ghost use Rattle.old_log.specs.Begun.{IsStartFor};
ghost use Rattle.old_log.specs.Files.{BeginsPeer, OpensPeer};

use crate::resuming::{OldFault, Resumed, resume_from};
use definitions::PlayerId;
use definitions::limits::LOG_FRONT;
use grid_world::Session;
use line_io::read_front;
use peer_core::Peer;
use run_frame::{Status, open_session};
use session_log::LogWriter;
use station::Shelf;
use std::alloc::Global;

/// A peer that goes on from the log with these bytes.
fn begin_with(
    alloc: Global,
    session: &Session,
    player: PlayerId,
    bytes: &[u8],
) -> Result<Resumed, Status>
    requires { player < players_of session.now }
    ensures due { IsStartFor player (B.old_beginning session.now bytes.now (old_fault session.now player bytes.now)) result }
    ensures calm { is_shelf_fault result ≡ false }
{
    match resume_from(alloc, session, player, bytes) {
        Ok(resumed) => Ok(resumed),
        Err(OldFault::NoMemory) => Err(Status::NoMemory),
        Err(OldFault::Bad(fault)) => Err(Status::BadLog {
            log: 0,
            at: fault.at,
            why: fault.why,
        }),
    }
}

/// A peer that goes on from the log in a file.
#[tactic(auto, unfolding(crate::specs::Begun::log_front_of))]
fn begin_with_file<H: Shelf>(
    alloc: Global,
    shelf: &mut H,
    session: &Session,
    player: PlayerId,
    name: &[u8],
) -> Result<Resumed, Status>
    requires { player < players_of session.now }
    ensures fetched { Fetched (H.state shelf.old) (H.state shelf.new) name.now (is_shelf_fault result) }
    ensures due { (content : Option (List ℕ)) → AllGive content (since (H.state shelf.old).pieces (H.state shelf.new).pieces) →
        IsStartFor player (B.begun player session.now (Some content)) result }
{
    let bytes = read_front(alloc, shelf, name, LOG_FRONT)?;
    begin_with(alloc, session, player, bytes.as_slice())
}

/// A peer with an empty log.
fn begin_empty(alloc: Global, session: &Session, player: PlayerId) -> Result<Resumed, Status>
    requires { player < players_of session.now }
    ensures due { IsStartFor player (Ok (B.empty_beginning session.now)) result }
    ensures calm { is_shelf_fault result ≡ false }
{
    let peer = Peer::new(alloc, session, player)?;
    Ok(Resumed {
        peer,
        dropped: None,
        kept: 0,
        writer: LogWriter::new(session, player),
    })
}

/// A peer for the player of the session, counted from 0, that goes on from the log in the file of that name, if
/// one is given: the first `LOG_FRONT` bytes of that are read. `Usage` comes where the session has no such
/// player, before any file is read. `BadLog` says at which byte and why the player can't go on from the log.
/// `InputFault` comes where the shelf failed, and `NoMemory` where memory was wanting.
pub fn begin<H: Shelf>(
    alloc: Global,
    shelf: &mut H,
    session: &Session,
    player: PlayerId,
    old: Option<&[u8]>,
) -> Result<Resumed, Status>
    ensures { BeginsPeer (H.state shelf.old) (H.state shelf.new) session.now player (option_map (λ name. name.now) old.entry) result }
{
    if player >= session.players() {
        return Err(Status::Usage);
    }
    match old {
        None => begin_empty(alloc, session, player),
        Some(name) => begin_with_file(alloc, shelf, session, player, name),
    }
}

/// A peer for the player of the session in the file of that name, from the log in the other file on, if one is
/// given: what `open_session` does, and then, where there is a session, what `begin` does. Each status is that
/// of the one that ended it.
pub fn open_peer<H: Shelf>(
    alloc: Global,
    shelf: &mut H,
    name: &[u8],
    player: PlayerId,
    old: Option<&[u8]>,
) -> Result<Resumed, Status>
    ensures { OpensPeer (H.state shelf.old) (H.state shelf.new) name.now player (option_map (λ name. name.now) old.entry) result }
{
    let session = open_session(alloc, shelf, name)?;
    begin(alloc, shelf, &session, player, old)
}
