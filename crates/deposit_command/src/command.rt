//! The command over the files that its words name.

ghost use Rattle.std.specs.Prelude.{◌≡◌, []};
ghost use Rattle.run_frame.specs.Outside.{Outside, with_sockets};
ghost use Rattle.run_frame.specs.Runs.{Works};
ghost use Rattle.deposit_command.specs.DepositLaw.{deposit_law};
ghost use Rattle.deposit_command.specs.Words.{depositing_said};

use crate::depositing::deposit;
use crate::opening::open_source;
use crate::words::DepositWords;
use run_frame::Status;
use socket_station::Station;
use station::{Shelf, Sink};
use std::alloc::Global;

/// Gives the log of a file to the live logger of a roster, as a player of a file's session, all as
/// the words ask for, but for the last line of a refusal.
///
/// No call of the station was made before.
pub fn run_deposit<O: Sink, H: Shelf, S: Station>(
    alloc: Global,
    words: DepositWords<'_>,
    out: &mut O,
    shelf: &mut H,
    station: &mut S,
) -> Status
    requires first { S.history station.old ≡ [] }
    ensures { (rest : Outside) → Works (deposit_law (depositing_said words.entry)) (with_sockets rest (O.state out.old) (H.state shelf.old) (S.history station.old) rest.chance) (with_sockets rest (O.state out.new) (H.state shelf.new) (S.history station.new) rest.chance) result }
{
    match open_source(alloc, shelf, words) {
        Err(status) => status,
        Ok(source) => deposit(&source, words, out, shelf, station),
    }
}
