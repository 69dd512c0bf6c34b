//! The commands of the program: which command the words say, and what is done for it.
//!
//! What is promised of a run is `Runs (law_of ..)`: the words say a command (`specs/Commands.antt`), each command has a law, which is a page of
//! its own crate, and `run_frame/specs/Runs.antt` says what a law promises, whatever the law is. Words that say no command have a law too.
//! The crate touches the source, the sink, the shelf, the station and the generator that it is handed, and hands each command what it uses of
//! them alone. The words are read by plain comparisons; `peer_cli` has them split by clap, and promises the same.
//!
//! A further command has its words, its law and one function in its own crate, and its name in
//! `command_names`. Here it is a line of `Command`, of `read_in`
//! and of `obey` (`src/commands.rt`), a line of each definition of commands in
//! `specs/Commands.antt`, and a line in each of two proofs (`Laws.antt`,
//! `commands/obey/Answers.antt`).
#![tactic(auto)]

mod commands;
mod program;

pub use commands::{Command, is_command, obey, read_in};
pub use program::run;
