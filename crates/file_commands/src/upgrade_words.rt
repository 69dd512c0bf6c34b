//! The words of the command.

ghost use Rattle.std.specs.Prelude.{◌≡◌, map, option_map};
ghost use Rattle.file_commands.specs.UpgradeWords.{upgrading_in};

use station::only_word;

/// The name of the session's file, which is the only word behind the command's name, if they are of this form.
pub fn read_upgrade_words(words: &[Vec<u8>]) -> Option<&[u8]>
    ensures { option_map (λ session. session.now) result ≡ upgrading_in (map (λ w. w.items) words.now) }
{
    only_word(words)
}
