//! What a logger goes by, read from the files that the words name.

ghost use Rattle.std.specs.Prelude.{◌≡◌, false, IfOk};
ghost use Rattle.definitions.specs.World.{players_of};
ghost use Rattle.rosters.specs.WatchText.{watch_roster_at};
ghost use Rattle.live_logger.specs.States.{LinksAll};
ghost use Rattle.run_frame.specs.Faults.{read_by};
ghost use Rattle.run_frame.specs.Opening.{IsDueFor, Opens};
ghost use Rattle.run_frame.specs.Sessions.{is_shelf_fault};
ghost use Rattle.run_frame.specs.declared.statuses.TextName.TheVariants as text;
ghost use Rattle.watch_command.specs.Opened as O;
ghost use Rattle.watch_command.specs.Opened.{links_in};
ghost use Rattle.watch_command.specs.Words.{watching_said};

use crate::words::WatchWords;
use grid_world::Session;
use line_io::read_front;
use rosters::{ROSTER_FRONT, Roster, read_watch_roster};
use run_frame::{Status, TextName, open_session, status_of_text};
use station::Shelf;
use std::alloc::Global;

/// The session, and a link to each of its players.
#[derive(Drop)]
pub(crate) struct WatchSource {
    pub session: Session,
    pub roster: Roster,
}

/// The links of a text.
fn links_of(alloc: Global, session: &Session, bytes: &[u8]) -> Result<Roster, Status>
    ensures due { IsDueFor (read_by text.Roster
        (watch_roster_at (players_of session.now) bytes.now)) result }
    ensures links { IfOk result (λ r. LinksAll session.now r) }
    ensures calm { is_shelf_fault result ≡ false }
{
    match read_watch_roster(alloc, bytes, session) {
        Ok(roster) => Ok(roster),
        Err(fault) => Err(status_of_text(TextName::Roster, fault)),
    }
}

/// The links of the roster in the file of that name.
fn open_links<H: Shelf>(
    alloc: Global,
    shelf: &mut H,
    session: &Session,
    name: &[u8],
) -> Result<Roster, Status>
    ensures opens { Opens (H.state shelf.old) (H.state shelf.new) name.now (is_shelf_fault result)
        (λ content. IsDueFor (links_in session.now content) result) }
    ensures links { IfOk result (λ r. LinksAll session.now r) }
{
    let bytes = read_front(alloc, shelf, name, ROSTER_FRONT)?;
    links_of(alloc, session, bytes.as_slice())
}

/// The session and the links of two files. The roster is left alone where the first file has no
/// session.
pub(crate) fn open_source<H: Shelf>(
    alloc: Global,
    shelf: &mut H,
    words: WatchWords<'_>,
) -> Result<WatchSource, Status>
    ensures { O.OpensSource (watching_said words.entry) (H.state shelf.old) (H.state shelf.new)
        result }
{
    let session = open_session(alloc, shelf, words.session)?;
    let roster = open_links(alloc, shelf, &session, words.roster)?;
    Ok(WatchSource { session, roster })
}
