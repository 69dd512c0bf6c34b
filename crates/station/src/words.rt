//! Words of which there must be one.

ghost use Rattle.std.specs.Prelude.{◌≡◌, map, option_map};
ghost use Rattle.station.specs.Words as W;

/// The only word. None comes where there is no word, or more than one.
pub fn only_word(words: &[Vec<u8>]) -> Option<&[u8]>
    ensures { option_map (λ word. word.now) result ≡ W.only_word (map (λ w. w.items) words.now) }
{
    match words {
        [word] => Some(word.as_slice()),
        _ => None,
    }
}
