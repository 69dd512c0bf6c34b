//! The root of a player's keys is told.

ghost use Rattle.std.specs.Prelude.{◌≡◌, ◌<◌, IfOk, Ok, false};
ghost use Rattle.definitions.specs.World.{players_of};
ghost use Rattle.run_frame.specs.Frame.{Ran};
ghost use Rattle.seal_keys.specs.Keys.{root_of};
ghost use Rattle.roots.specs.Text.{root_line};
ghost use Rattle.key_commands.specs.Root.{root_answer};

use crate::opening::KeySource;
use definitions::PlayerId;
use line_io::put;
use roots::put_root;
use run_frame::Status;
use seal_keys::SealKeys;
use station::Sink;
use std::alloc::{AllocError, Global};

/// The line of the root of the player's keys.
fn root_text(alloc: Global, source: &KeySource, player: PlayerId) -> Result<Vec<u8>, AllocError>
    requires { player < players_of source.now.session }
    ensures { IfOk result (λ line. line.items ≡ root_line player (root_of source.now.session source.now.seed)) }
{
    let keys = SealKeys::new(alloc, &source.session, player, &source.seed)?;
    let mut line = Vec::new(alloc);
    put_root(&mut line, player, &keys.root())?;
    Ok(line)
}

/// Prints the line of the root of the player's keys. Nothing is written where memory is wanting.
pub(crate) fn tell_root<O: Sink>(
    alloc: Global,
    source: &KeySource,
    player: PlayerId,
    out: &mut O,
) -> Status
    requires { player < players_of source.now.session }
    ensures { Ran (O.state out.old) (O.state out.new) (root_answer player (Ok (record { game = source.now.session; seed = source.now.seed }))) false ⊥ ⊥ result }
{
    let Ok(line) = root_text(alloc, source, player) else {
        return Status::NoMemory;
    };
    match put(out, &line) {
        Ok(()) => Status::Done,
        Err(fault) => Status::from(fault),
    }
}
