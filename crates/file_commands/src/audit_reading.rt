//! The words of the command, as they are read.

ghost use Rattle.std.specs.Prelude.{◌≡◌, map, option_map};
ghost use Rattle.file_commands.specs.AuditWords as W;

use crate::audit_words::AuditWords;
use definitions::limits::MOST_AUDITED;

/// Whether there is a log, and not more than one run takes.
fn are_few(logs: &[Vec<u8>]) -> bool
    ensures { result ≡ W.are_few (map (λ w. w.items) logs.now) }
{
    !logs.is_empty() && logs.len() <= MOST_AUDITED
}

/// What the words behind the command's name say, which are `SESSION LOG..`, if they are of this form.
pub fn read_audit_words(words: &[Vec<u8>]) -> Option<AuditWords<'_>>
    ensures { option_map W.auditing_said result ≡ W.auditing_in (map (λ w. w.items) words.now) }
{
    match words {
        [] => None,
        [session, logs @ ..] => {
            if are_few(logs) {
                Some(AuditWords {
                    session: session.as_slice(),
                    logs,
                })
            } else {
                None
            }
        }
    }
}
