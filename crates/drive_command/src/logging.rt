//! The log so far, printed.

ghost use Rattle.std.specs.Prelude.{◌≡◌, ◌≤◌};
ghost use Rattle.hex.specs.Hex.{encode_lower};
ghost use Rattle.line_io.specs.Texts.{Puts};
ghost use Rattle.session_log.specs.Writing.{written, after, all_written, fresh};
ghost use Rattle.drive_command.specs.Report.{log_text, log_field};
ghost use Rattle.session_log.specs.Spelling.{log_bytes};

use arrayvec::ArrayVec;
use definitions::Entry;
use hex::encode_to_slice;
use line_io::{SinkFault, put};
use peer_core::Peer;
use session_log::LogWriter;
use station::Sink;

/// Room for the bytes of an entry.
const ENTRY_ROOM: usize = 96;

/// Room for the digits that spell them.
const ENTRY_DIGITS: usize = 192;

/// The digits of the next entry's bytes in a log.
fn entry_digits(writer: &mut LogWriter, entry: &Entry) -> ArrayVec<u8, ENTRY_DIGITS>
    ensures digits { result.items ≡ encode_lower (written writer.old entry.now) }
    ensures writer { writer.new ≡ after writer.old entry.now }
{
    let mut bytes = [0; ENTRY_ROOM];
    let count = writer.put(entry, &mut bytes);
    let mut digits = [0; ENTRY_DIGITS];
    encode_to_slice(&bytes[..count], &mut digits[..2 * count]).unwrap();
    let mut text = ArrayVec::new();
    text.try_extend_from_slice(&digits[..2 * count]).unwrap();
    text
}

/// Writes the digits of the bytes of these entries of a log.
fn put_digits<O: Sink>(
    writer: &mut LogWriter,
    entries: &[Entry],
    out: &mut O,
) -> Result<(), SinkFault>
    ensures { Puts (O.state out.old) (O.state out.new) (encode_lower (all_written writer.old entries.now)) result }
{
    'entries: for entry in entries {
        put(out, entry_digits(writer, entry).as_slice())?;
    }
    Ok(())
}

/// Writes the digits of a log as a field of a line; nothing where the log has no bytes.
fn put_field<O: Sink>(peer: &Peer, out: &mut O) -> Result<(), SinkFault>
    ensures { Puts (O.state out.old) (O.state out.new) (log_field (log_bytes peer.now.game.id peer.now.me peer.now.entries)) result }
{
    let entries = peer.entries();
    if entries.is_empty() {
        return put(out, b"");
    }
    let mut writer = LogWriter::new(peer.session(), peer.me());
    put(out, b" ")?;
    put_digits(&mut writer, entries, out)
}

/// Writes the line that prints the log so far, all of its bytes, entry by entry.
#[tactic(auto, unfolding(crate::specs::Report::log_text))]
pub(crate) fn put_log<O: Sink>(peer: &Peer, out: &mut O) -> Result<(), SinkFault>
    ensures { Puts (O.state out.old) (O.state out.new) (log_text peer.now.game peer.now.me peer.now.entries) result }
{
    put(out, b"log")?;
    put_field(peer, out)?;
    put(out, b"\n")
}
