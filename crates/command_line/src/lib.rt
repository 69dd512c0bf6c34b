//! The program's words as a command with the words after its name, which clap splits off.
//!
//! The command set is made of the list of all names (`command_names`), as a clap command with one
//! subcommand for each.
//! [`split`] says of texts that don't begin with `-` exactly what `split_of` of `specs/Lines.antt`
//! does: the command that the first of them names, and the others as clap found them, where the
//! command takes so many. [`split_words`] does so for the program's words, which it reads as texts.
//! Whatever else the texts are, `help` too, clap isn't asked. So where clap fails it is for want of
//! memory, and no message of clap's is ever shown.
//! What the words of a command mean is for the crate of that command. The crate takes memory from
//! the allocator that it is given, and touches nothing outside.
#![tactic(auto)]

mod commands;
mod lines;
mod words;

pub use lines::{CommandLine, split};
pub use words::{OwnLine, split_words};
