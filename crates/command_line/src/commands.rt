//! The command set as clap has it.

ghost use Rattle.std.specs.Prelude.{◌≡◌, IfOk, false};
ghost use Rattle.clap.specs.Words.{app_of, shape_of};
ghost use Rattle.clap.specs.declared.builder.command.Command.TheViews.{out-Command};
ghost use Rattle.command_line.specs.Commands as C;

use clap::{Arg, Command};
use command_names::{ALL, Name};
use std::alloc::{AllocError, Global};

/// The command of this name, whose words are the values of its one argument.
fn subcommand_of<'a>(alloc: Global, name: Name) -> Result<Command<'a>, AllocError>
    ensures shape { IfOk result (λ c. shape_of c ≡ C.leaf_of name) }
    ensures local { IfOk result (λ c. (out-Command c).has_globals ≡ false) }
{
    let form = name.form();
    let words = Arg::new(alloc, "words")
        .num_args(form.least..=form.most)
        .required(true);
    let text: &'a str = form.text;
    Command::new(alloc, text).arg(words)
}

/// The command above the others, with no flag and no `help` that clap would add.
fn bare_set<'a>(alloc: Global) -> Command<'a>
    ensures { app_of result ≡ C.bare_set }
{
    Command::new(alloc, "lethwyrn")
        .no_binary_name(true)
        .disable_help_flag(true)
        .disable_help_subcommand(true)
}

/// The command set: a subcommand for each of the program's commands.
pub(crate) fn command_set<'a>(alloc: Global) -> Result<Command<'a>, AllocError>
    ensures { IfOk result (λ c. app_of c ≡ C.command_set) }
{
    let mut set = bare_set(alloc);
    for &name in ALL {
        let subcommand = subcommand_of(alloc, name)?;
        set = set.subcommand(subcommand)?;
    }
    Ok(set)
}
