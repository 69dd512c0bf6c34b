//! The words of the command.

ghost use Rattle.std.specs.Prelude.{◌≡◌, map};
ghost use Rattle.make_command.specs.Words as W;

use byte_fields::read_number;

/// The number of the match, by the words behind the command's name, which are `N`, if they are of this form: a canonical number below 2 to
/// the power of 64.
pub fn read_make_words(words: &[Vec<u8>]) -> Option<u64>
    ensures { result ≡ W.making_in (map (λ w. w.items) words.now) }
{
    match words {
        [number] => read_number(number.as_slice(), u64::MAX),
        _ => None,
    }
}
