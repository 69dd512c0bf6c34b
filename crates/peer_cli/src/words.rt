//! What a command line says that clap split.

ghost use Rattle.std.specs.Prelude.{◌≡◌, option_and_then, option_map};
ghost use Rattle.command_line.specs.Lines.{owned};
ghost use Rattle.peer_runs.specs.Commands.{command_said};
ghost use Rattle.peer_cli.specs.Lines as L;

use command_line::OwnLine;
use peer_runs::{Command, read_in};

/// The command of a command line, if it says one.
pub(crate) fn command_on(line: &Option<OwnLine>) -> Option<Command<'_>>
    ensures { option_map command_said result ≡ option_and_then L.command_on (option_map owned line.now) }
{
    match line {
        None => None,
        Some(line) => read_in(line.name, line.words.as_slice()),
    }
}
