//! The program's words as texts.

ghost use Rattle.std.specs.Prelude.{◌≡◌, IfOk, IfSome, Some, None, if◌then◌else◌, map, option_map, true};
ghost use Rattle.std.specs.List.{list_all};
ghost use Rattle.station.specs.Words as W;

use std::alloc::{AllocError, Global};
use std::str::from_utf8;

/// Whether it doesn't begin with `-`.
fn is_plain(word: &[u8]) -> bool
    ensures { result ≡ W.is_plain word.now }
{
    !matches!(word, [b'-', ..])
}

/// Whether the word is UTF-8 and doesn't begin with `-`.
fn is_word(word: &[u8]) -> bool
    ensures { result ≡ W.is_word word.now }
{
    match from_utf8(word) {
        Ok(_) => is_plain(word),
        Err(_) => false,
    }
}

/// Whether each word is UTF-8 and none begins with `-`. It takes no memory.
pub fn are_words(words: &[Vec<u8>]) -> bool
    ensures { result ≡ list_all W.is_word (map (λ w. w.items) words.now) }
{
    for word in words {
        if !is_word(word.as_slice()) {
            return false;
        }
    }
    true
}

/// The word as a text, if it is UTF-8 and doesn't begin with `-`.
fn read_text(word: &[u8]) -> Option<&str>
    ensures { option_map (λ t. t.now) result ≡ (if W.is_word word.now then Some word.now else None) }
{
    match from_utf8(word) {
        Ok(text) => { if is_plain(word) { Some(text) } else { None } }
        Err(_) => None,
    }
}

/// The words as texts, if each is UTF-8 and none begins with `-`. `Err` is want of memory.
pub fn read_texts<'a>(
    alloc: Global,
    words: &'a [Vec<u8>],
) -> Result<Option<Vec<&'a str>>, AllocError>
    ensures texts { IfOk result (λ r. option_map (λ texts. map (λ t. t.now) texts.items) r ≡ W.texts_of (map (λ w. w.items) words.now)) }
    ensures plain { IfOk result (λ r. IfSome r (λ texts. W.are_plain (map (λ t. t.now) texts.items) ≡ true)) }
{
    let mut texts = Vec::new(alloc);
    for word in words {
        let Some(text) = read_text(word.as_slice()) else {
            return Ok(None);
        };
        texts.push(text)?;
    }
    Ok(Some(texts))
}
