//! How many own turns of a peer are settled, counted anew from the first one on by spheres that
//! are computed cell by cell, while frames of the others come in any order and some never do.

ghost use Rattle.std.specs.Prelude.{◌<◌};
ghost use Rattle.definitions.specs.World.{players_of};

use crate::plain::{have_common, mark_of, sphere, walk};
use crate::sessions::session_of;
use commitment::frame_of;
use definitions::{Cell, Move, Nonce, Opening, PlayerId, Turn};
use grid_world::Session;
use peer_core::{Peer, PlayerView};
use rand_core::utils::NextWord;
use rand_pcg::Pcg32;
use std::alloc::{AllocError, Global};
use std::test::Fail;

/// Sessions on a path, whose players commit one to eight turns ahead, and differ in some of them.
static PATHS: [&[u8]; 6] = [
    b"playout 1\ngrid 12 1\nrules 1 1 0\ncharge 1 2 1\nturns 12\nplayers 3\nplayer 0 0 0\nplayer 1 9 0\nplayer 2 5 0\nend\n",
    b"playout 2\ngrid 12 1\nrules 1 1 0\ncharge 1 2 1\nturns 12\nahead 1\nplayers 3\nplayer 0 0 0\nplayer 1 9 0 2 0\nplayer 2 5 0\nend\n",
    b"playout 2\ngrid 12 1\nrules 1 1 0\ncharge 1 2 1\nturns 12\nahead 2\nplayers 3\nplayer 0 0 0\nplayer 1 9 0\nplayer 2 5 0 1 3\nend\n",
    b"playout 2\ngrid 12 1\nrules 1 1 0\ncharge 1 2 1\nturns 12\nahead 3\nplayers 3\nplayer 0 0 0 4 0\nplayer 1 9 0\nplayer 2 5 0 2 2\nend\n",
    b"playout 2\ngrid 12 1\nrules 1 1 0\ncharge 1 2 1\nturns 12\nahead 5\nplayers 3\nplayer 0 0 0\nplayer 1 9 0\nplayer 2 5 0\nend\n",
    b"playout 2\ngrid 12 1\nrules 1 1 0\ncharge 1 2 1\nturns 12\nahead 8\nplayers 3\nplayer 0 0 0\nplayer 1 9 0 3 1\nplayer 2 5 0\nend\n",
];

/// Where the peer's player stays.
const HOME: Cell = Cell { x: 0, y: 0 };

/// How many frames come in each script, and how many scripts there are for each session, one a
/// seed.
const FRAMES: u32 = 60;

const SCRIPTS: u64 = 20;

/// Whether a player of whom this is known doesn't meet player 0 in the turn, who stays at home.
fn is_apart(
    alloc: Global,
    session: &Session,
    player: PlayerId,
    view: &PlayerView,
    turn: u32,
) -> Result<bool, AllocError>
    requires own { 0 < players_of session.now }
    requires player { player < players_of session.now }
{
    let grid = session.grid();
    let home = mark_of(alloc, grid, HOME)?;
    let own = sphere(alloc, session, 0, &home)?;
    let mut reached = mark_of(alloc, grid, view.track.at)?;
    for _missed in view.turns..turn {
        reached = walk(alloc, grid, reached, session.speed(player))?;
    }
    let theirs = sphere(alloc, session, player, &reached)?;
    Ok(!have_common(&own, &theirs))
}

/// Whether the player's turn is resolved, or it doesn't meet player 0 in it.
fn lets_on(alloc: Global, peer: &Peer, player: PlayerId, turn: u32) -> Result<bool, AllocError> {
    let session = peer.session();
    if player == 0 || player >= session.players() {
        return Ok(true);
    }
    let view = peer.player(player);
    if view.turns > turn {
        return Ok(true);
    }
    is_apart(alloc, session, player, &view, turn)
}

/// How many turns are settled of player 0, whose peer this is, while two others play.
fn settled_turns(alloc: Global, peer: &Peer) -> Result<u32, AllocError> {
    let own = peer.turn();
    for turn in 0..own {
        let first = lets_on(alloc, peer, 1, turn)?;
        let second = lets_on(alloc, peer, 2, turn)?;
        if !first || !second {
            return Ok(turn);
        }
    }
    Ok(own)
}

/// A number below this one that looks drawn.
fn below(rng: &mut Pcg32, sides: u32) -> u32
    requires { 0 < sides }
    ensures { result < sides }
{
    rng.next_word() % sides
}

/// What a player does in a turn: a step to and fro.
fn opening_of(player: PlayerId, turn: Turn) -> Opening {
    let home = if player == 1 { 9 } else { 5 };
    let x = if turn % 2 == 0 { home + 1 } else { home };
    Opening {
        player,
        turn,
        mv: Move {
            to: Cell { x, y: 0 },
            strike: None,
        },
        nonce: Nonce { bytes: [0; 32] },
    }
}

/// A frame of the player comes, at the place that is next or one of the four behind it.
fn hears(peer: &mut Peer, rng: &mut Pcg32, player: PlayerId) {
    if player == 0 || player >= peer.session().players() {
        return;
    }
    let place = peer.player(player).next.saturating_add(below(rng, 5));
    if let Some(slot) = peer.session().slot_at(place) {
        let opening = opening_of(player, slot.turn);
        let frame = frame_of(peer.session().id(), slot.what, &opening);
        peer.got(player, &frame);
    }
}

/// The peer itself stays where it is, where it may choose.
fn plays(peer: &mut Peer) {
    let stays = Move {
        to: HOME,
        strike: None,
    };
    // a refusal changes nothing
    let _ = peer.choose(stays, Nonce { bytes: [7; 32] });
    peer.advance();
}

/// The peer plays, or a frame of one of the others comes: more of player 2, so that player 1 is
/// missed.
fn goes_on(peer: &mut Peer, rng: &mut Pcg32) {
    match below(rng, 8) {
        0 | 1 => plays(peer),
        2 | 3 => hears(peer, rng, 1),
        _ => hears(peer, rng, 2),
    }
}

/// Whether the peer says at each step of a script how many turns are settled, and how many are in
/// the end.
fn agree(alloc: Global, peer: &mut Peer, rng: &mut Pcg32) -> Result<Option<u32>, AllocError> {
    for _frame in 0..FRAMES {
        goes_on(peer, rng);
        if settled_turns(alloc, peer)? != peer.settled() {
            return Ok(None);
        }
    }
    Ok(Some(peer.settled()))
}

/// The same for the script of a seed.
fn agree_on(alloc: Global, session: &Session, seed: u64) -> Result<Option<u32>, AllocError> {
    session.facts();
    let mut peer = Peer::new(alloc, session, 0)?;
    let mut rng = Pcg32::new(seed, 1);
    agree(alloc, &mut peer, &mut rng)
}

/// How many turns are settled in the end of all scripts, if the peer and the count agree all the
/// time.
fn agree_on_all(alloc: Global, text: &[u8]) -> Result<u32, Fail> {
    let session = session_of(alloc, text)?;
    let mut sum = 0u32;
    for seed in 0..SCRIPTS {
        let settled = agree_on(alloc, &session, seed)?.ok_or("another count")?;
        sum = sum.saturating_add(settled);
    }
    Ok(sum)
}

#[test]
fn turns_are_settled_as_counted_anew(rt: HostRuntime) -> Result<(), Fail> {
    for path in PATHS {
        // in some scripts turns are settled, and never all of them
        let sum = agree_on_all(rt.alloc(), path)?;
        assert!(rt; sum > 0 && sum < 12 * SCRIPTS as u32);
    }
    Ok(())
}
