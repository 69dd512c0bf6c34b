//! What a log is deposited by, read from the files that the words name.

ghost use Rattle.std.specs.Prelude.{◌≡◌, false};
ghost use Rattle.rosters.specs.LoggerText.{logger_at};
ghost use Rattle.run_frame.specs.Faults.{read_by};
ghost use Rattle.run_frame.specs.Opening.{IsDueFor, Opens};
ghost use Rattle.run_frame.specs.Sessions.{is_shelf_fault};
ghost use Rattle.run_frame.specs.declared.statuses.TextName.TheVariants as text;
ghost use Rattle.deposit_command.specs.Opened as O;
ghost use Rattle.deposit_command.specs.Opened.{logger_in};
ghost use Rattle.deposit_command.specs.Words.{depositing_said};

use crate::words::DepositWords;
use grid_world::Session;
use line_io::read_front;
use rosters::{Logger, ROSTER_FRONT, read_logger};
use run_frame::{Status, TextName, open_session};
use station::Shelf;
use std::alloc::Global;

/// The session, of which the player is one, and the player's logger.
#[derive(Drop)]
pub(crate) struct DepositSource {
    pub session: Session,
    pub logger: Logger,
}

/// The logger of a text.
fn logger_of(bytes: &[u8]) -> Result<Logger, Status>
    ensures due { IsDueFor (read_by text.Roster (logger_at bytes.now)) result }
    ensures calm { is_shelf_fault result ≡ false }
{
    match read_logger(bytes) {
        Ok(logger) => Ok(logger),
        Err(line) => Err(Status::BadLine {
            text: TextName::Roster,
            line,
        }),
    }
}

/// The logger of the roster in the file of that name.
fn open_logger<H: Shelf>(alloc: Global, shelf: &mut H, name: &[u8]) -> Result<Logger, Status>
    ensures { Opens (H.state shelf.old) (H.state shelf.new) name.now (is_shelf_fault result) (λ content. IsDueFor (logger_in content) result) }
{
    let bytes = read_front(alloc, shelf, name, ROSTER_FRONT)?;
    logger_of(bytes.as_slice())
}

/// The session and the logger of two files. The roster is left alone where the first file has no
/// session of which the player is one.
pub(crate) fn open_source<H: Shelf>(
    alloc: Global,
    shelf: &mut H,
    words: DepositWords<'_>,
) -> Result<DepositSource, Status>
    ensures { O.OpensSource (depositing_said words.entry) (H.state shelf.old) (H.state shelf.new) result }
{
    let session = open_session(alloc, shelf, words.session)?;
    if words.player >= session.players() {
        return Err(Status::Usage);
    }
    let logger = open_logger(alloc, shelf, words.roster)?;
    Ok(DepositSource { session, logger })
}
