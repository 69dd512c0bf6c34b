//! The words of the command.

ghost use Rattle.std.specs.Prelude.{◌≡◌, map, option_map};
ghost use Rattle.schedule_command.specs.Words.{scheduling_in};

use station::only_word;

/// The session's file, by the words behind the command's name, which are `SESSION`, if they are of this form.
pub fn read_schedule_words(words: &[Vec<u8>]) -> Option<&[u8]>
    ensures { option_map (λ name. name.now) result ≡ scheduling_in (map (λ w. w.items) words.now) }
{
    only_word(words)
}
