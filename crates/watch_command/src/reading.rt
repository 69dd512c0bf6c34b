//! The words of the command, as they are read.

ghost use Rattle.std.specs.Prelude.{◌≡◌, map, option_map};
ghost use Rattle.watch_command.specs.Words.{watching_in, watching_said};

use crate::words::WatchWords;
use run_frame::read_polls;

/// What the words after the command's name say, which are `SESSION ROSTER POLLS`, if they are of
/// this form.
pub fn read_watch_words(words: &[Vec<u8>]) -> Option<WatchWords<'_>>
    ensures { option_map watching_said result ≡ watching_in (map (λ w. w.items) words.now) }
{
    match words {
        [session, roster, polls] => {
            let polls = read_polls(polls.as_slice())?;
            Some(WatchWords {
                session: session.as_slice(),
                roster: roster.as_slice(),
                polls,
            })
        }
        _ => None,
    }
}
