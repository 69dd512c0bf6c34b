//! A script that is answered line by line.

ghost use Rattle.std.specs.Prelude.{◌≡◌, ◌≤◌, ◌+◌, ◌++◌, [], false, length, IsTrue, OnOk};
ghost use Rattle.definitions.specs.Advance.{advance};
ghost use Rattle.definitions.specs.Findings.{is_clean};
ghost use Rattle.definition_laws.specs.First.{finding_of_log};
ghost use Rattle.line_io.specs.Inputs.{Input, Line, End};
ghost use Rattle.run_frame.specs.Frame.{Ends, after_text};
ghost use Rattle.run_frame.specs.Turns.{Plays, PlaysTurn};
ghost use Rattle.drive_command.specs.Begin.{begun_answer};
ghost use Rattle.drive_command.specs.Drive as D;
ghost use Rattle.report_lines.specs.Lines.{added_text, found_text};
ghost use Rattle.drive_command.specs.Outcomes.{driven_from};

use crate::answering::{answer, bad_line_status};
use crate::driver::Driver;
use crate::printing::{put_end, put_start};
use definitions::limits::{LONGEST_LINE, MOST_LINES};
use line_io::{LineReader, NextLine};
use peer_core::Peer;
use report_lines::put_dropped;
use run_frame::Status;
use station::{Sink, Source};

/// Writes the end of a peer whose log has a finding.
fn end_caught<O: Sink>(driver: &Driver, out: &mut O) -> Status
    requires { is_clean driver.now.game driver.now.state.log ≡ false }
    ensures { (input : Input) → Ends (O.state out.old) (O.state out.new) (driven_from driver.now input) result }
{
    match put_end(driver.peer(), out) {
        Ok(()) => Status::Caught,
        Err(fault) => Status::from(fault),
    }
}

/// Writes the end of a peer whose script came to its end.
fn end<O: Sink>(driver: &Driver, out: &mut O) -> Status
    ensures { Ends (O.state out.old) (O.state out.new) (driven_from driver.now End) result }
{
    if driver.peer().finding().is_some() {
        return end_caught(driver, out);
    }
    match put_end(driver.peer(), out) {
        Ok(()) => Status::Done,
        Err(fault) => Status::from(fault),
    }
}

/// Answers the last line, behind which the input ended.
fn answer_last<O: Sink>(driver: &mut Driver, line: &[u8], out: &mut O) -> Status
    requires short { length line.now ≤ LONGEST_LINE }
    requires clean { IsTrue (is_clean driver.old.game driver.old.state.log) }
    ensures { Ends (O.state out.old) (O.state out.new) (driven_from driver.old (Line line.now End)) result }
{
    match answer(driver, line, out) {
        Ok(()) => end(driver, out),
        Err(status) => status,
    }
}

/// Reads the next line and answers it; after a finding nothing is read. An error is the status with
/// which the run ends.
fn answer_line<I: Source, O: Sink>(
    driver: &mut Driver,
    reader: &mut LineReader,
    input: &mut I,
    out: &mut O,
) -> Result<(), Status>
    ensures text { PlaysTurn (I.state input.old) (I.state input.new) (O.state out.old) (O.state out.new)
        (driven_from driver.old) (driven_from driver.new) reader.old.pending reader.new.pending result }
    ensures counted { OnOk result ((driver.new.lines ≡ driver.old.lines + 1) × (driver.new.lines ≤ MOST_LINES)) }
{
    if driver.peer().finding().is_some() {
        return Err(end_caught(driver, out));
    }
    match reader.next(input) {
        NextLine::Failed => Err(Status::InputFault),
        NextLine::TooLong => Err(bad_line_status(driver)),
        NextLine::End => Err(end(driver, out)),
        NextLine::Last => Err(answer_last(driver, reader.line(), out)),
        NextLine::Line => answer(driver, reader.line(), out),
    }
}

/// Reads and answers the lines to their end, or to the first that ends the run.
fn answer_lines<I: Source, O: Sink>(
    driver: &mut Driver,
    reader: &mut LineReader,
    input: &mut I,
    out: &mut O,
) -> Status
    ensures { Plays (I.state input.old) (I.state input.new) (O.state out.old) (O.state out.new) (driven_from driver.old) reader.old.pending result }
{
    'lines: loop {
        match answer_line(driver, reader, input, out) {
            Ok(()) => {}
            Err(status) => return status,
        }
    }
}

/// Tells what was made since the log had so many entries and the log's finding, if it has one, and then answers the lines of
/// the input.
fn follow<I: Source, O: Sink>(
    driver: &mut Driver,
    entries: usize,
    input: &mut I,
    out: &mut O,
) -> Status
    requires { entries ≤ length driver.old.state.log }
    ensures text { Plays (I.state input.old) (I.state input.new) (O.state out.old) (O.state out.new)
        (λ script. after_text (added_text entries driver.old.state.log ++ found_text (finding_of_log driver.old.game driver.old.state.log)) (driven_from driver.old script)) [] result }
    ensures untouched { is_clean driver.old.game driver.old.state.log ≡ false → input.new ≡ input.old }
{
    let mut reader = LineReader::new();
    match put_start(driver.peer(), entries, out) {
        Ok(()) => {
            // the input is left alone after a finding with which the peer begins
            if driver.peer().finding().is_some() {
                return end_caught(driver, out);
            }
            answer_lines(driver, &mut reader, input, out)
        }
        Err(fault) => Status::from(fault),
    }
}

/// Lets the peer advance, and then answers the lines of the input as its script. Nothing is written after a fault.
pub fn play<I: Source, O: Sink>(peer: Peer, input: &mut I, out: &mut O) -> Status

    // What is read and written, and how the run ends: as is due for the bytes that were read, whatever stands behind them.
    ensures text { Plays (I.state input.old) (I.state input.new) (O.state out.old) (O.state out.new) (D.drive peer.game peer.me peer.entries) [] result }

    // Where the log that the peer begins with has a finding, the input is left alone.
    ensures untouched { is_clean peer.game (advance peer.game peer.me peer.entries) ≡ false → input.new ≡ input.old }
{
    let entries = peer.entries().len();
    let mut driver = Driver::new(peer);
    follow(&mut driver, entries, input, out)
}

/// Tells from which byte on the log is dropped that the peer goes on from, if it is, and then plays the input as the script of the
/// peer.
pub fn drive<I: Source, O: Sink>(
    peer: Peer,
    dropped: Option<u32>,
    input: &mut I,
    out: &mut O,
) -> Status
    ensures text { Plays (I.state input.old) (I.state input.new) (O.state out.old) (O.state out.new)
        (begun_answer peer.me (record { game = peer.game; first = peer.entries; dropped = dropped })) [] result }
    ensures untouched { is_clean peer.game (advance peer.game peer.me peer.entries) ≡ false → input.new ≡ input.old }
{
    match put_dropped(dropped, out) {
        Ok(()) => play(peer, input, out),
        Err(fault) => Status::from(fault),
    }
}
