//! A seed, and the session and player of whose keys it is.

ghost use Rattle.std.specs.Prelude.{◌≡◌, ◌<◌, false, IfOk};
ghost use Rattle.definitions.specs.World.{players_of};
ghost use Rattle.run_frame.specs.Opening.{IsDueFor, Opens};
ghost use Rattle.run_frame.specs.Sessions.{game_for, is_shelf_fault};
ghost use Rattle.key_commands.specs.Seeds.{seed_in, seed_said};

use definitions::PlayerId;
use grid_world::Session;
use line_io::read_front;
use run_frame::{Status, TextName, open_session};
use station::Shelf;
use std::alloc::Global;

/// How many bytes of a seed's file are read: one more than a seed has, so that a longer file is told
/// from a seed.
pub const SEED_FRONT: usize = 33;

/// The seed that these bytes are, if they are 32.
fn seed_of(bytes: &[u8]) -> Result<[u8; 32], Status>
    ensures due { IsDueFor (seed_said bytes.now) result }
    ensures calm { is_shelf_fault result ≡ false }
{
    if bytes.len() != 32 {
        return Err(Status::BadLine {
            text: TextName::Seed,
            line: 1,
        });
    }
    let mut seed = [0; 32];
    seed.copy_from_slice(bytes);
    Ok(seed)
}

/// The seed in the file of that name.
pub(crate) fn open_seed<H: Shelf>(
    alloc: Global,
    shelf: &mut H,
    name: &[u8],
) -> Result<[u8; 32], Status>
    ensures { Opens (H.state shelf.old) (H.state shelf.new) name.now (is_shelf_fault result) (λ content. IsDueFor (seed_in content) result) }
{
    let bytes = read_front(alloc, shelf, name, SEED_FRONT)?;
    seed_of(bytes.as_slice())
}

/// The session in the file of that name, of which the player is one.
pub(crate) fn open_player<H: Shelf>(
    alloc: Global,
    shelf: &mut H,
    name: &[u8],
    player: PlayerId,
) -> Result<Session, Status>
    ensures opens { Opens (H.state shelf.old) (H.state shelf.new) name.now (is_shelf_fault result) (λ content. IsDueFor (game_for player content) result) }
    ensures within { IfOk result (λ session. player < players_of session) }
{
    let session = open_session(alloc, shelf, name)?;
    if player >= session.players() {
        return Err(Status::Usage);
    }
    Ok(session)
}
