//! The lines of an audit, each in a buffer of its own.

ghost use Rattle.std.specs.Prelude.{◌≡◌};
ghost use Rattle.file_commands.specs.AuditLines as L;

use arrayvec::ArrayVec;
use definitions::{Finding, PlayerId, Spot};
use itoa::Buffer;
use text_fields::name_of_kind;

/// Room for what is said of a spot, which has at most 22 bytes.
const SPOT_ROOM: usize = 24;

/// Room for a line, which has at most 86 bytes.
const LINE_ROOM: usize = 128;

/// A line.
pub(crate) type AuditLine = ArrayVec<u8, LINE_ROOM>;

/// A spot: the log's number and the entry's, each behind a space.
#[tactic(auto, unfolding(crate::specs::AuditLines::spot_text))]
fn spot_text(spot: Spot) -> ArrayVec<u8, SPOT_ROOM>
    ensures { result.items ≡ L.spot_text spot }
{
    let mut text = ArrayVec::new();
    text.push(b' ');
    text.try_extend_from_slice(Buffer::new().format(spot.log).as_bytes())
        .unwrap();
    text.push(b' ');
    text.try_extend_from_slice(Buffer::new().format(spot.entry).as_bytes())
        .unwrap();
    text
}

/// The line of a finding.
#[tactic(auto, unfolding(crate::specs::AuditLines::finding_line))]
pub fn finding_line(finding: &Finding) -> AuditLine
    ensures { result.items ≡ L.finding_line finding.now }
{
    let mut line = ArrayVec::new();
    line.try_extend_from_slice(b"finding ").unwrap();
    line.try_extend_from_slice(Buffer::new().format(finding.player).as_bytes())
        .unwrap();
    line.push(b' ');
    line.try_extend_from_slice(Buffer::new().format(finding.turn).as_bytes())
        .unwrap();
    line.push(b' ');
    line.try_extend_from_slice(name_of_kind(finding.kind))
        .unwrap();
    line.try_extend_from_slice(spot_text(finding.first).as_slice())
        .unwrap();
    line.try_extend_from_slice(spot_text(finding.second).as_slice())
        .unwrap();
    line.push(b'\n');
    line
}

/// The line that says how many turns of a player are agreed.
#[tactic(auto, unfolding(crate::specs::AuditLines::agreed_line))]
pub(crate) fn agreed_line(player: PlayerId, count: u32) -> AuditLine
    ensures { result.items ≡ L.agreed_line player count }
{
    let mut line = ArrayVec::new();
    line.try_extend_from_slice(b"agreed ").unwrap();
    line.try_extend_from_slice(Buffer::new().format(player).as_bytes())
        .unwrap();
    line.push(b' ');
    line.try_extend_from_slice(Buffer::new().format(count).as_bytes())
        .unwrap();
    line.push(b'\n');
    line
}
