//! The log of a player is given, and how that ended is written.

ghost use Rattle.std.specs.Prelude.{◌≡◌, ℕ, []};
ghost use Rattle.line_io.specs.Texts.{Puts};
ghost use Rattle.run_frame.specs.Frame.{Ends};
ghost use Rattle.deposit_command.specs.Deposits.{deposit_answer};
ghost use Rattle.deposit_command.specs.Gives.{GivesLog};
ghost use Rattle.deposit_command.specs.Words.{depositing_said};

use crate::opening::DepositSource;
use crate::words::DepositWords;
use line_io::{SinkFault, put};
use live_deposit::{Deposit, Deposited};
use run_frame::{Status, gave_up_line};
use socket_station::Station;
use station::{Shelf, Sink};

/// Writes how a deposit ended. A fault of the shelf has its own line at the end of the run, so that
/// nothing is written of it here.
fn put_end<O: Sink>(end: Deposited, polls: u32, out: &mut O) -> Result<(), SinkFault>
    ensures { Puts (O.state out.old) (O.state out.new) (deposit_answer polls end).body result }
{
    match end {
        Deposited::Sent => put(out, b"sent\n"),
        Deposited::GaveUp => put(out, gave_up_line(polls).as_slice()),
        Deposited::PollFault => put(out, b"poll fault\n"),
        Deposited::ShelfFault => put(out, b""),
    }
}

/// How the run ends.
fn status_of(end: Deposited) -> Status
    ensures { (polls : ℕ) → result ≡ (deposit_answer polls end).status }
{
    match end {
        Deposited::Sent => Status::Done,
        Deposited::GaveUp => Status::GaveUp,
        Deposited::PollFault => Status::PollFault,
        Deposited::ShelfFault => Status::InputFault,
    }
}

/// Writes how a deposit with so many polls ended, and says the run's status.
fn tell_end<O: Sink>(end: Deposited, polls: u32, out: &mut O) -> Status
    ensures { Ends (O.state out.old) (O.state out.new) (deposit_answer polls end) result }
{
    match put_end(end, polls, out) {
        Ok(()) => status_of(end),
        Err(fault) => Status::from(fault),
    }
}

/// Gives the log that the words name to the logger, with the polls that they grant, and writes how
/// that ended. No call of the station was made before.
pub(crate) fn deposit<O: Sink, H: Shelf, S: Station>(
    source: &DepositSource,
    words: DepositWords<'_>,
    out: &mut O,
    shelf: &mut H,
    station: &mut S,
) -> Status
    requires first { S.history station.old ≡ [] }
    ensures { GivesLog (depositing_said words.entry) source.now (S.history station.new) (H.state shelf.old) (H.state shelf.new) (O.state out.old) (O.state out.new) result }
{
    let mut depositor = Deposit::new(source.logger, &source.session, words.player);
    let end = depositor.send(station, shelf, words.log, u64::from(words.polls));
    tell_end(end, words.polls, out)
}
