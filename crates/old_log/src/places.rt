//! Where an entry of a log begins.

ghost use Rattle.std.specs.Prelude.{◌≡◌, ◌≤◌, length};
ghost use Rattle.session_log.specs.Spelling.{log_bytes};
ghost use Rattle.old_log.specs.Old as O;

use definitions::limits::LONGEST_LOG;
use definitions::{Entry, PlayerId};
use grid_world::Session;
use session_log::LogWriter;

/// The byte behind these entries of the owner's log, counted from 0: that of the next one. The owner's byte is the first.
pub(crate) fn place_behind(session: &Session, owner: PlayerId, entries: &[Entry]) -> u32
    requires { length (log_bytes session.now.id owner entries.now) ≤ LONGEST_LOG }
    ensures { result ≡ O.place_behind session.now.id owner entries.now }
{
    let mut writer = LogWriter::new(session, owner);
    let mut count = 0usize;
    for entry in entries {
        count += writer.put(entry, &mut [0; 96]);
    }
    // the owner's byte is written with the first entry, and there may be none
    count.max(1) as u32
}
