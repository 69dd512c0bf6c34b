//! The program's words as a command line with words of its own.

ghost use Rattle.std.specs.Prelude.{◌≡◌, IfOk, map, option_map};
ghost use Rattle.command_line.specs.Lines as L;

use crate::lines::split;
use command_names::Name;
use station::read_texts;
use std::alloc::{AllocError, Global};

/// A command line with words of its own: the command, and the words after its name as bytes.
#[derive(Debug, Drop)]
pub struct OwnLine {
    pub name: Name,
    pub words: Vec<Vec<u8>>,
}

/// The bytes of the texts, in memory of their own.
fn copies_of(alloc: Global, texts: &[&str]) -> Result<Vec<Vec<u8>>, AllocError>
    ensures { IfOk result (λ r. map (λ w. w.items) r.items ≡ map (λ t. t.now) texts.now) }
{
    let mut copies = Vec::new(alloc);
    for text in texts {
        let copy = Vec::from_slice(alloc, text.as_bytes())?;
        copies.push(copy)?;
    }
    Ok(copies)
}

/// What the program's words say, those after its own name: a command, and the words after its
/// name, as clap splits them. It is `None` where a word is no UTF-8 or begins with `-`, where the
/// first is no command's name, or where the others are fewer or more than it takes. `Err` is want
/// of memory.
pub fn split_words(alloc: Global, words: &[Vec<u8>]) -> Result<Option<OwnLine>, AllocError>
    ensures { IfOk result (λ r. option_map L.owned r ≡ L.line_of_words (map (λ w. w.items) words.now)) }
{
    let Some(texts) = read_texts(alloc, words)? else {
        return Ok(None);
    };
    let Some(line) = split(alloc, texts.as_slice())? else {
        return Ok(None);
    };
    let words = copies_of(alloc, line.words.as_slice())?;
    Ok(Some(OwnLine {
        name: line.name,
        words,
    }))
}
