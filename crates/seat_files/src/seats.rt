//! What a player plays by: the session, the roster, the moves and perhaps a log, from files.

ghost use Rattle.std.specs.Prelude.{◌≡◌, ◌<◌, false, IfOk};
ghost use Rattle.definitions.specs.World.{players_of};
ghost use Rattle.rosters.specs.Reading.{roster_at};
ghost use Rattle.rosters.specs.Rosters.{LinksOthers};
ghost use Rattle.pilots.specs.Scripts.{script_at};
ghost use Rattle.seat_files.specs.Words.{peering_said};
ghost use Rattle.run_frame.specs.Sessions.{is_shelf_fault};
ghost use Rattle.run_frame.specs.Opening.{IsDueFor, Opens};
ghost use Rattle.seat_files.specs.Seats as T;
ghost use Rattle.seat_files.specs.Seats.{moves_by, moves_in, roster_by, roster_in};

use crate::words::PeerWords;
use definitions::PlayerId;
use grid_world::Session;
use line_io::read_front;
use old_log::begin;
use peer_core::Peer;
use pilots::{MOVES_FRONT, ScriptPilot};
use rosters::{ROSTER_FRONT, Roster, read_roster};
use run_frame::{Status, TextName, open_session, status_of_text};
use station::Shelf;
use std::alloc::Global;

/// A peer and what it plays by, and the byte from which on its older log was dropped, if it was.
#[derive(Drop)]
pub struct Seat {
    pub peer: Peer,
    pub dropped: Option<u32>,
    pub roster: Roster,
    pub pilot: ScriptPilot,
}

/// The roster of a text.
fn roster_of(
    alloc: Global,
    session: &Session,
    player: PlayerId,
    text: &[u8],
) -> Result<Roster, Status>
    requires { player < players_of session.now }
    ensures due { IsDueFor (roster_by (roster_at player (players_of session.now) text.now)) result }
    ensures links { IfOk result (λ r. LinksOthers player (players_of session.now) r) }
    ensures calm { is_shelf_fault result ≡ false }
{
    match read_roster(alloc, text, session, player) {
        Ok(roster) => Ok(roster),
        Err(fault) => Err(status_of_text(TextName::Roster, fault)),
    }
}

/// The roster of a file.
#[tactic(auto, unfolding(crate::specs::Seats::roster_front_of))]
fn open_roster<H: Shelf>(
    alloc: Global,
    shelf: &mut H,
    session: &Session,
    player: PlayerId,
    name: &[u8],
) -> Result<Roster, Status>
    requires { player < players_of session.now }
    ensures opens { Opens (H.state shelf.old) (H.state shelf.new) name.now (is_shelf_fault result) (λ content. IsDueFor (roster_in session.now player content) result) }
    ensures links { IfOk result (λ r. LinksOthers player (players_of session.now) r) }
{
    let text = read_front(alloc, shelf, name, ROSTER_FRONT)?;
    roster_of(alloc, session, player, text.as_slice())
}

/// The moves of a text.
fn moves_of(alloc: Global, session: &Session, text: &[u8]) -> Result<ScriptPilot, Status>
    ensures due { IsDueFor (moves_by (script_at session.now.turns text.now)) result }
    ensures calm { is_shelf_fault result ≡ false }
{
    match ScriptPilot::read(alloc, text, session) {
        Ok(pilot) => Ok(pilot),
        Err(fault) => Err(status_of_text(TextName::Moves, fault)),
    }
}

/// The moves of a file.
#[tactic(auto, unfolding(crate::specs::Seats::moves_front_of))]
fn open_moves<H: Shelf>(
    alloc: Global,
    shelf: &mut H,
    session: &Session,
    name: &[u8],
) -> Result<ScriptPilot, Status>
    ensures { Opens (H.state shelf.old) (H.state shelf.new) name.now (is_shelf_fault result) (λ content. IsDueFor (moves_in session.now content) result) }
{
    let text = read_front(alloc, shelf, name, MOVES_FRONT)?;
    moves_of(alloc, session, text.as_slice())
}

/// The moves of a file, and then the peer, with the log in the other file, if one is named.
fn open_behind_roster<H: Shelf>(
    alloc: Global,
    shelf: &mut H,
    session: &Session,
    words: PeerWords<'_>,
    roster: Roster,
) -> Result<Seat, Status>
    requires player { words.player < players_of session.now }
    requires links { LinksOthers words.player (players_of session.now) roster }
    ensures { T.ReadsBehindRoster (peering_said words.entry) session.now roster (H.state shelf.old) (H.state shelf.new) result }
{
    let pilot = open_moves(alloc, shelf, session, words.moves)?;
    let begun = begin(alloc, shelf, session, words.player, words.old)?;
    Ok(Seat {
        peer: begun.peer,
        dropped: begun.dropped,
        roster,
        pilot,
    })
}

/// The roster of a file, and then the rest.
fn open_behind_session<H: Shelf>(
    alloc: Global,
    shelf: &mut H,
    session: &Session,
    words: PeerWords<'_>,
) -> Result<Seat, Status>
    ensures { T.ReadsBehindSession (peering_said words.entry) session.now (H.state shelf.old) (H.state shelf.new) result }
{
    if words.player >= session.players() {
        return Err(Status::Usage);
    }
    let roster = open_roster(alloc, shelf, session, words.player, words.roster)?;
    open_behind_roster(alloc, shelf, session, words, roster)
}

/// The session of a file, the roster and the moves of two others, and the peer, with the log in the last one, if
/// one is named. No file is read after one that is refused.
pub fn open_seat<H: Shelf>(
    alloc: Global,
    shelf: &mut H,
    words: PeerWords<'_>,
) -> Result<Seat, Status>
    ensures { T.OpensSeat (peering_said words.entry) (H.state shelf.old) (H.state shelf.new) result }
{
    let session = open_session(alloc, shelf, words.session)?;
    open_behind_session(alloc, shelf, &session, words)
}
