//! The words of the command, as they are read.

ghost use Rattle.std.specs.Prelude.{◌≡◌, map, option_map};
ghost use Rattle.file_commands.specs.AuditWords as audit;
ghost use Rattle.accuse_command.specs.AccuseWords as W;

use crate::words::AccuseWords;
use definitions::limits::MOST_AUDITED;

/// Whether there is a file, and not more than one run takes.
fn are_few(files: &[Vec<u8>]) -> bool
    ensures { result ≡ audit.are_few (map (λ w. w.items) files.now) }
{
    !files.is_empty() && files.len() <= MOST_AUDITED
}

/// What the words after the command's name say, which are `SESSION ROOTS FILE..`, if they are of
/// this form.
pub fn read_accuse_words(words: &[Vec<u8>]) -> Option<AccuseWords<'_>>
    ensures { option_map W.accusing_said result ≡ W.accusing_in (map (λ w. w.items) words.now) }
{
    match words {
        [session, roots, files @ ..] => {
            if are_few(files) {
                Some(AccuseWords {
                    session: session.as_slice(),
                    roots: roots.as_slice(),
                    files,
                })
            } else {
                None
            }
        }
        _ => None,
    }
}
