//! Texts as a command line.

ghost use Rattle.std.specs.Prelude.{◌≡◌, IfErr, IfOk, Some, is_some, map, option_map, true};
ghost use Rattle.clap.specs.Words.{kind_of, subcommand_rows_of};
ghost use Rattle.command_line.specs.Found as F;
ghost use Rattle.command_line.specs.Lines as L;
ghost use Rattle.station.specs.Words as W;

use crate::commands::command_set;
use clap::error::ErrorKind;
use clap::{ArgMatches, Error};
use command_names::Name;
use std::alloc::{AllocError, Global};

/// A command line as clap splits it: the command, and the words after its name.
#[derive(Debug, Drop)]
pub struct CommandLine<'a> {
    pub name: Name,
    pub words: Vec<&'a str>,
}

/// Whether the texts are a command's name and as many words as it takes.
fn is_line(texts: &[&str]) -> bool
    ensures { result ≡ is_some (L.split_of (map (λ t. t.now) texts.now)) }
{
    match texts {
        [] => false,
        [name, words @ ..] => match Name::read(name.as_bytes()) {
            Some(name) => name.takes(words.len()),
            None => false,
        },
    }
}

/// What clap finds in the texts of a command line, which fails for want of memory alone.
fn parse<'a>(alloc: Global, texts: &'a [&'a str]) -> Result<ArgMatches<'a>, Error>
    requires plain { W.are_plain (map (λ t. t.now) texts.now) ≡ true }
    requires said { is_some (L.split_of (map (λ t. t.now) texts.now)) ≡ true }
    ensures ok { IfOk result (λ m. subcommand_rows_of m ≡ F.subcommand_for (L.split_of (map (λ t. t.now) texts.now))) }
    ensures err { IfErr result (λ e. kind_of e ≡ ErrorKind.OutOfMemory) }
{
    let set = command_set(alloc)?;
    set.try_get_matches_from(texts)
}

/// The want of memory for which clap failed.
fn want_of_memory(_error: Error) -> AllocError
    requires { kind_of _error ≡ ErrorKind.OutOfMemory }
{
    AllocError
}

/// The command line in what clap found.
fn read_line<'a>(alloc: Global, matches: &ArgMatches<'a>) -> Result<CommandLine<'a>, AllocError>
    requires { is_some (F.line_in (subcommand_rows_of matches.now)) ≡ true }
    ensures { IfOk result (λ line. Some (L.said line) ≡ F.line_in (subcommand_rows_of matches.now)) }
{
    let (text, found) = matches.subcommand().unwrap();
    let name = Name::read(text.as_bytes()).unwrap();
    let words = found.get_raw("words").unwrap();
    let words = Vec::from_slice(alloc, words)?;
    Ok(CommandLine { name, words })
}

/// What the texts say, as clap splits them: a command, and the words after its name. It is `None`
/// where the first is no command's name, or the others are fewer or more than it takes. The texts
/// of `read_texts` are plain. `Err` is want of memory.
pub fn split<'a>(alloc: Global, texts: &'a [&'a str]) -> Result<Option<CommandLine<'a>>, AllocError>
    requires { W.are_plain (map (λ t. t.now) texts.now) ≡ true }
    ensures { IfOk result (λ r. option_map L.said r ≡ L.split_of (map (λ t. t.now) texts.now)) }
{
    if !is_line(texts) {
        return Ok(None);
    }
    match parse(alloc, texts) {
        Ok(matches) => {
            let line = read_line(alloc, &matches)?;
            Ok(Some(line))
        }
        Err(error) => Err(want_of_memory(error)),
    }
}
