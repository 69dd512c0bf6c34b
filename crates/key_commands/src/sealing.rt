//! The frames that a player made are sealed, and written with their seals.

ghost use Rattle.std.specs.Prelude.{◌≡◌, ◌<◌, None, Ok, IfOk, false, replicate, length};
ghost use Rattle.definitions.specs.World.{players_of};
ghost use Rattle.definitions.specs.Logs as L;
ghost use Rattle.definitions.specs.Honest.{IsHonest};
ghost use Rattle.line_io.specs.Texts.{Puts};
ghost use Rattle.run_frame.specs.Frame.{Ran};
ghost use Rattle.seal_keys.specs.Keys.{places};
ghost use Rattle.seal_keys.specs.Seals.{seal_len};
ghost use Rattle.key_commands.specs.Seal as S;
ghost use Rattle.key_commands.specs.Seal.{seal_answer};
ghost use Rattle.key_commands.specs.Unused.{IsUnusedFrom};

use crate::opening::SealSource;
use commitment::put_turn;
use definitions::TurnFrame;
use line_io::{SinkFault, put};
use peer_core::Peer;
use run_frame::Status;
use seal_keys::{Seal, SealKeys};
use station::Sink;
use std::alloc::{AllocError, Global};

/// Room for the bytes of a frame.
const FRAME_ROOM: usize = 64;

/// Writes the frame and its seal after it.
fn put_sealed<O: Sink>(frame: &TurnFrame, seal: &Seal, out: &mut O) -> Result<(), SinkFault>
    ensures { Puts (O.state out.old) (O.state out.new) (S.with_seal frame.now seal.now) result }
{
    let mut bytes = [0; FRAME_ROOM];
    let count = put_turn(frame, &mut bytes);
    put(out, &bytes[..count])?;
    put(out, seal.bytes())
}

/// Writes each frame that the peer made, with its seal. Nothing was sealed by the keys before.
fn put_made<O: Sink>(
    keys: &mut SealKeys,
    seal: &mut Seal,
    peer: &Peer,
    out: &mut O,
) -> Result<(), SinkFault>
    requires game { keys.old.game ≡ peer.now.game }
    requires player { keys.old.player ≡ peer.now.me }
    requires fresh { keys.old.sealed ≡ replicate (places peer.now.game) None }
    requires room { length seal.old ≡ seal_len peer.now.game }
    requires honest { IsHonest peer.now.game peer.now.me peer.now.entries }
    ensures { Puts (O.state out.old) (O.state out.new) (S.sealed_frames peer.now.game keys.old.seed (L.made peer.now.entries)) result }
{
    peer.session().facts();
    for place in 0..peer.made_count() {
        match peer.made(place) {
            None => {}
            Some(frame) => {
                // Fair play makes one frame at each place, so that each seal is Done.
                let _done = keys.seal(&frame, seal);
                put_sealed(&frame, seal, out)?;
            }
        }
    }
    Ok(())
}

/// The keys of the peer's player, by the seed, and room for a seal.
fn sealing_of(alloc: Global, source: &SealSource) -> Result<(SealKeys, Seal), AllocError>
    requires { source.now.peer.me < players_of source.now.peer.game }
    ensures keys { IfOk result (λ x. x.0 ≡ S.new_keys source.now) }
    ensures room { IfOk result (λ x. length x.1 ≡ seal_len source.now.peer.game) }
{
    let session = source.peer.session();
    let keys = SealKeys::new(alloc, session, source.peer.me(), &source.seed)?;
    let seal = Seal::new(alloc, session)?;
    Ok((keys, seal))
}

/// Writes the frames that the player made, each with its seal. Nothing is written where memory is
/// wanting.
pub(crate) fn tell_sealed<O: Sink>(alloc: Global, source: &SealSource, out: &mut O) -> Status
    requires seated { source.now.peer.me < players_of source.now.peer.game }
    requires honest { IsHonest source.now.peer.game source.now.peer.me source.now.peer.entries }
    ensures { Ran (O.state out.old) (O.state out.new) (seal_answer (Ok (S.sealed_by source.now))) false ⊥ ⊥ result }
{
    let Ok((mut keys, mut seal)) = sealing_of(alloc, source) else {
        return Status::NoMemory;
    };
    match put_made(&mut keys, &mut seal, &source.peer, out) {
        Ok(()) => Status::Done,
        Err(fault) => Status::from(fault),
    }
}
