//! The seat of a player at the table: its peer, or none where the player is hostile.

ghost use Rattle.std.specs.Prelude.{◌≡◌, ◌<◌, IfOk};
ghost use Rattle.definitions.specs.World.{players_of};
ghost use Rattle.definitions.specs.Answers.{got_answer};
ghost use Rattle.definitions.specs.Steps as D;
ghost use Rattle.schedule.specs.Steps as S;
ghost use Rattle.schedule.specs.Seats as P;

use crate::steps::StepAnswer;
use definitions::{Move, Nonce, PlayerId, TurnFrame};
use grid_world::Session;
use peer_core::{Cut, Peer};
use std::alloc::{AllocError, Global};

/// Lets the peer's player choose, and then makes what the peer may make by itself. A choice that is refused changes nothing.
fn choose_now(peer: &mut Peer, mv: Move, nonce: Nonce) -> StepAnswer
    ensures answer { result ≡ S.choice_answer peer.old.game peer.old.me peer.old.entries mv }
    ensures after { peer.new ≡ record peer.old { entries = D.after_choice peer.old.game peer.old.me peer.old.entries mv nonce } }
{
    let turn = peer.choice().turn;
    match peer.choose_and_advance(mv, nonce) {
        Err(fault) => StepAnswer::Refused(fault),
        Ok(()) => StepAnswer::Chosen(turn),
    }
}

/// Hands a frame to the peer, and then makes what the peer may make by itself. A frame that is refused changes nothing.
fn hear_now(peer: &mut Peer, from: PlayerId, frame: &TurnFrame) -> StepAnswer
    ensures answer { result ≡ StepAnswer.Got (got_answer peer.old.game peer.old.me peer.old.entries from frame.now) }
    ensures after { peer.new ≡ record peer.old { entries = D.after_got peer.old.game peer.old.me peer.old.entries from frame.now } }
{
    let answer = peer.got_and_advance(from, frame);
    StepAnswer::Got(answer)
}

/// Stops the peer and lets it go on from its first entries, and then makes what the peer may make by itself.
fn stop_now(peer: &mut Peer, keep: u32) -> StepAnswer
    ensures answer { result ≡ S.stop_answer peer.old.entries keep }
    ensures after { peer.new ≡ record peer.old { entries = D.after_stop peer.old.game peer.old.me peer.old.entries keep } }
{
    match peer.cut(keep) {
        Cut::BadCut => StepAnswer::BadCut,
        Cut::Done => {
            peer.advance();
            StepAnswer::Stopped
        }
    }
}

/// Lets the player at the seat choose.
pub(crate) fn choose(seat: &mut Option<Peer>, mv: Move, nonce: Nonce) -> StepAnswer
    ensures answer { result ≡ P.said_at seat.old (P.says_to_choice mv) }
    ensures after { seat.new ≡ P.seat_with (P.log_with_choice mv nonce) seat.old }
{
    match seat {
        None => StepAnswer::NotHonest,
        Some(peer) => choose_now(peer, mv, nonce),
    }
}

/// Hands a frame to the player at the seat.
pub(crate) fn hear(seat: &mut Option<Peer>, from: PlayerId, frame: &TurnFrame) -> StepAnswer
    ensures answer { result ≡ P.said_at seat.old (P.says_to_frame from frame.now) }
    ensures after { seat.new ≡ P.seat_with (P.log_with_frame from frame.now) seat.old }
{
    match seat {
        None => StepAnswer::NotHonest,
        Some(peer) => hear_now(peer, from, frame),
    }
}

/// Stops the peer at the seat.
pub(crate) fn stop(seat: &mut Option<Peer>, keep: u32) -> StepAnswer
    ensures answer { result ≡ P.said_at seat.old (P.says_to_stop keep) }
    ensures after { seat.new ≡ P.seat_with (P.log_with_stop keep) seat.old }
{
    match seat {
        None => StepAnswer::NotHonest,
        Some(peer) => stop_now(peer, keep),
    }
}

/// Whether the player is hostile.
fn is_hostile(hostile: u64, player: PlayerId) -> bool
    requires { player < 64 }
    ensures { result ≡ S.is_hostile hostile player }
{
    (hostile >> player) & 1 == 1
}

/// A player's seat before the first step: with a peer, where it is honest.
fn take_seat(
    alloc: Global,
    session: &Session,
    hostile: u64,
    player: PlayerId,
) -> Result<Option<Peer>, AllocError>
    requires { player < players_of session.now }
    ensures { IfOk result (λ seat. seat ≡ P.first_seat session.now hostile player) }
{
    session.facts();
    if is_hostile(hostile, player) {
        return Ok(None);
    }
    let peer = Peer::new(alloc, session, player)?;
    Ok(Some(peer))
}

/// All seats before the first step.
pub(crate) fn seat_all(
    alloc: Global,
    session: &Session,
    hostile: u64,
) -> Result<Vec<Option<Peer>>, AllocError>
    ensures { IfOk result (λ seats. seats.items ≡ P.first_seats session.now hostile) }
{
    let mut seats = Vec::with_capacity(alloc, usize::from(session.players()))?;
    for player in 0..session.players() {
        let seat = take_seat(alloc, session, hostile, player)?;
        seats.push(seat)?;
    }
    Ok(seats)
}
