//! Lines that are answered.

ghost use Rattle.std.specs.Prelude.{◌≡◌, ◌≤◌, ◌<◌, ◌+◌, ◌∷◌, List, ℕ, length, drop, IsTrue, OnOk};
ghost use Rattle.definitions.specs.Findings.{is_clean};
ghost use Rattle.line_io.specs.Inputs.{Input, Line};
ghost use Rattle.run_frame.specs.Turns.{Turns};
ghost use Rattle.drive_command.specs.Outcomes.{driven_from, bytes_from, MayCome};
ghost use Rattle.drive_command.specs.Bringing.{BringsPart, OnMore};

use crate::driver::Driver;
use crate::outcomes::{Outcome, is_last};
use crate::printing::{put_answered, put_part};
use definitions::PlayerId;
use definitions::limits::{LONGEST_LINE, MOST_LINES};
use line_io::SinkFault;
use run_frame::{Status, TextName};
use station::Sink;

/// The status of the line that comes next, if it is in no grammar.
pub(crate) fn bad_line_status(driver: &Driver) -> Status
    ensures { result ≡ Status.BadLine TextName.Script (driver.now.lines + 1) }
{
    Status::BadLine {
        text: TextName::Script,
        line: driver.next_line(),
    }
}

/// Reads on in bytes that come from a player, up to the end of a frame, and tells of it. Where more
/// of the bytes are to be read, says how many were used. None are where all are read, where one is
/// bad, or where there is a finding, after which the rest is dropped.
fn bring_part<O: Sink>(
    driver: &mut Driver,
    from: PlayerId,
    bytes: &[u8],
    out: &mut O,
) -> Result<Option<usize>, SinkFault>
    requires { MayCome driver.old from bytes.now }
    ensures text { (input : Input) →
        BringsPart (O.state out.old) (O.state out.new) (bytes_from driver.old from bytes.now input) driver.new from bytes.now input result }
    ensures lines { driver.new.lines ≡ driver.old.lines }
    ensures more { OnMore result (λ used. (0 < used) × (used ≤ length bytes.now) × MayCome driver.new from (drop used bytes.now)) }
{
    let part = driver.take_part(from, bytes);
    let arrival = part.arrival;
    put_part(driver.peer(), from, &arrival, out)?;
    if is_last(&arrival) || driver.peer().finding().is_some() {
        Ok(None)
    } else {
        Ok(Some(part.used))
    }
}

/// Reads the bytes that come from a player, and tells of each frame that they make whole, up to the
/// first that makes a finding, and of a bad byte. An error is the status with which the run ends.
fn bring<O: Sink>(
    driver: &mut Driver,
    from: PlayerId,
    bytes: &[u8],
    out: &mut O,
) -> Result<(), Status>
    requires { MayCome driver.old from bytes.now }
    ensures text { (input : Input) →
        Turns (O.state out.old) (O.state out.new) (bytes_from driver.old from bytes.now input) (driven_from driver.new input) result }
    ensures lines { OnOk result (driver.new.lines ≡ driver.old.lines) }
{
    let mut rest = bytes;
    'parts: while let Some(used) = bring_part(driver, from, rest, out)? {
        rest = rest.split_at(used).1;
    }
    Ok(())
}

/// Takes the line that was read, and answers it. An error is the status with which the run ends.
pub(crate) fn answer<O: Sink>(driver: &mut Driver, line: &[u8], out: &mut O) -> Result<(), Status>
    requires short { length line.now ≤ LONGEST_LINE }
    requires clean { IsTrue (is_clean driver.old.game driver.old.state.log) }
    ensures text { (input : Input) →
        Turns (O.state out.old) (O.state out.new) (driven_from driver.old (Line line.now input)) (driven_from driver.new input) result }
    ensures counted { OnOk result ((driver.new.lines ≡ driver.old.lines + 1) × (driver.new.lines ≤ MOST_LINES)) }
{
    match driver.take_line(line) {
        Outcome::Bad => Err(bad_line_status(driver)),
        Outcome::Bytes(from, piece) => bring(driver, from, piece.as_slice(), out),
        Outcome::AtOnce(answered) => {
            put_answered(driver.peer(), &answered, out)?;
            Ok(())
        }
    }
}
