//! What the commands go by, read from the files that their words name.

ghost use Rattle.std.specs.Prelude.{◌≡◌, ◌<◌, ◌∷◌, [], false, IfOk};
ghost use Rattle.definitions.specs.World.{players_of};
ghost use Rattle.definitions.specs.Honest.{IsHonest};
ghost use Rattle.run_frame.specs.Opening.{Opens, Reads};
ghost use Rattle.run_frame.specs.Sessions.{is_shelf_fault};
ghost use Rattle.key_commands.specs.Due as D;
ghost use Rattle.key_commands.specs.Opened as O;
ghost use Rattle.key_commands.specs.Words.{keying_said, sealing_said};

use crate::seeds::{open_player, open_seed};
use crate::words::{KeyWords, SealWords};
use definitions::PlayerId;
use definitions::limits::LOG_FRONT;
use grid_world::Session;
use line_io::read_front;
use old_log::{OldFault, resume_whole};
use peer_core::Peer;
use run_frame::Status;
use station::Shelf;
use std::alloc::Global;

/// What a player's keys come from: the session, of which the player is one, and the seed.
#[derive(Drop)]
pub(crate) struct KeySource {
    pub session: Session,
    pub seed: [u8; 32],
}

/// A seed, and the peer whose log tells what is sealed.
#[derive(Drop)]
pub(crate) struct SealSource {
    pub seed: [u8; 32],
    pub peer: Peer,
}

/// The session and the seed of two files. The seed's is left alone where the first has no session of
/// which the player is one.
pub(crate) fn open_keys<H: Shelf>(
    alloc: Global,
    shelf: &mut H,
    words: KeyWords<'_>,
) -> Result<KeySource, Status>
    ensures { D.OpensKeys (keying_said words.entry) (H.state shelf.old) (H.state shelf.new) result }
{
    let session = open_player(alloc, shelf, words.session, words.player)?;
    let seed = open_seed(alloc, shelf, words.seed)?;
    Ok(KeySource { session, seed })
}

/// The peer of a log with these bytes, which is to be whole.
fn peer_of(alloc: Global, session: &Session, player: PlayerId, bytes: &[u8]) -> Result<Peer, Status>
    requires { player < players_of session.now }
    ensures due { D.IsPeerDue session.now player bytes.now result }
    ensures honest { IfOk result (λ peer. IsHonest session.now player peer.entries) }
    ensures calm { is_shelf_fault result ≡ false }
{
    match resume_whole(alloc, session, player, bytes) {
        Ok(peer) => Ok(peer),
        Err(OldFault::NoMemory) => Err(Status::NoMemory),
        Err(OldFault::Bad(fault)) => Err(Status::BadLog {
            log: 0,
            at: fault.at,
            why: fault.why,
        }),
    }
}

/// The peer of the log in the file of that name.
#[tactic(auto, unfolding(old_log::specs::Begun::log_front_of))]
fn open_peer<H: Shelf>(
    alloc: Global,
    shelf: &mut H,
    session: &Session,
    player: PlayerId,
    name: &[u8],
) -> Result<Peer, Status>
    requires { player < players_of session.now }
    ensures opens { Opens (H.state shelf.old) (H.state shelf.new) name.now (is_shelf_fault result) (λ content. D.IsPeerFor session.now player content result) }
    ensures honest { IfOk result (λ peer. IsHonest session.now player peer.entries) }
{
    let bytes = read_front(alloc, shelf, name, LOG_FRONT)?;
    peer_of(alloc, session, player, bytes.as_slice())
}

/// The seed and the log of two files, after that of the session.
fn open_after_session<H: Shelf>(
    alloc: Global,
    shelf: &mut H,
    session: &Session,
    words: SealWords<'_>,
) -> Result<SealSource, Status>
    requires { words.keys.player < players_of session.now }
    ensures { D.ReadsAfterSession (sealing_said words.entry) session.now (H.state shelf.old) (H.state shelf.new) result }
{
    let seed = open_seed(alloc, shelf, words.keys.seed)?;
    let peer = open_peer(alloc, shelf, session, words.keys.player, words.log)?;
    Ok(SealSource { seed, peer })
}

/// The session, the seed and the log of three files. No file is read after one that is refused.
pub(crate) fn open_sealing<H: Shelf>(
    alloc: Global,
    shelf: &mut H,
    words: SealWords<'_>,
) -> Result<SealSource, Status>
    ensures { D.OpensSealing (sealing_said words.entry) (H.state shelf.old) (H.state shelf.new) result }
{
    let session = open_player(alloc, shelf, words.keys.session, words.keys.player)?;
    open_after_session(alloc, shelf, &session, words)
}
