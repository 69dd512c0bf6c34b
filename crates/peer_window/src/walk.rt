//! How far a player's stream goes: over the slots of its next frames, until one is empty or doesn't fit; and what the reveal
//! behind the turns resolved shows, also where commitments before it are missing.

ghost use Rattle.std.specs.Prelude.{◌≡◌, ◌<◌, ◌≤◌, ◌*◌, ◌+◌, length, IsTrue};
ghost use Rattle.definitions.specs.World.{players_of, is_open};
ghost use Rattle.definitions.specs.Logs.{player_of};
ghost use Rattle.peer_window.specs.Slots.{AreSlots, slot};
ghost use Rattle.peer_window.specs.Steps as W;

use crate::clashes::{illegal_clash, is_of};
use crate::received::Received;
use crate::slots::{commitment_slot, reveal_slot, slot};
use definitions::{Finding, Move, PlayerId, Track, Turn, TurnFrame, What};
use grid_world::{Session, Stream};
use move_rules::Walker;

/// What stands where the next frame should.
#[derive(Clone, Copy, Debug, PartialEq, Eq)]
pub(crate) enum Step {
    /// A commitment.
    Committed,
    /// A reveal that opens the commitment and is legal: the track after it.
    Resolved(Track),
    /// Nothing, or a reveal that doesn't open the commitment.
    Halt,
    /// A reveal that opens the commitment and isn't legal.
    Illegal(Finding),
}

/// The step over a reveal that opens the commitment held of its turn, if one is held: its move
/// decides.
fn move_step(
    session: &Session,
    walker: &mut Walker,
    track: &Track,
    before: &Option<Received>,
    reveal: &Received,
    player: PlayerId,
    mv: &Move,
) -> Step
    requires player { player < players_of session.now }
    requires track { IsTrue (is_open session.now.grid track.now.at) }
    ensures step { result ≡ W.move_step session.now track.now before.now reveal.now player mv.now }
{
    let Some(commitment) = before else {
        return Step::Halt;
    };
    match walker.legal(session, player, track, mv) {
        Ok(next) => Step::Resolved(next),
        Err(_) => Step::Illegal(illegal_clash(commitment, reveal)),
    }
}

/// The step over what stands in a reveal's slot, where it opens the commitment held of its turn, if
/// one is held.
fn frame_step(
    session: &Session,
    walker: &mut Walker,
    track: &Track,
    before: &Option<Received>,
    received: &Received,
) -> Step
    requires player { player_of received.now.frame < players_of session.now }
    requires track { IsTrue (is_open session.now.grid track.now.at) }
    ensures step { result ≡ W.opened_step session.now track.now before.now received.now received.now.frame }
{
    match received.frame {
        TurnFrame::Commit { .. } => Step::Halt,
        TurnFrame::Reveal { player, mv, .. } => {
            move_step(session, walker, track, before, received, player, &mv)
        }
    }
}

/// The step over the commitment of a turn.
fn commit_step(slots: &[Option<Received>], turn: Turn) -> Step
    ensures { result ≡ W.commit_step (slot slots.now (2 * turn)) }
{
    match slot(slots, commitment_slot(turn)) {
        None => Step::Halt,
        Some(_) => Step::Committed,
    }
}

/// The step over the reveal of the first turn that isn't resolved.
///
/// Nothing is hashed: a reveal opens the commitment held, but in the turn of the bad opening, if
/// there is one.
fn turn_step(
    session: &Session,
    walker: &mut Walker,
    player: PlayerId,
    slots: &[Option<Received>],
    bad: &Option<Finding>,
    stream: &Stream,
) -> Step
    requires player { player < players_of session.now }
    requires slots { AreSlots player slots.now stream.now.commits stream.now.resolved }
    requires agree { W.AgreeBut session.now slots.now bad.now }
    requires track { IsTrue (is_open session.now.grid stream.now.track.at) }
    ensures step { result ≡ W.turn_step session.now slots.now stream.now }
{
    if is_of(bad, stream.resolved) {
        return Step::Halt;
    }
    match slot(slots, reveal_slot(stream.resolved)) {
        None => Step::Halt,
        Some(received) => {
            let before = slot(slots, commitment_slot(stream.resolved));
            frame_step(session, walker, &stream.track, &before, &received)
        }
    }
}

/// The step over the next frame of the stream. Past the last turn's reveal the walk halts.
fn next_step(
    session: &Session,
    walker: &mut Walker,
    player: PlayerId,
    slots: &[Option<Received>],
    bad: &Option<Finding>,
    stream: &Stream,
) -> Step
    requires player { player < players_of session.now }
    requires slots { AreSlots player slots.now stream.now.commits stream.now.resolved }
    requires agree { W.AgreeBut session.now slots.now bad.now }
    requires length { length slots.now ≡ 2 * session.now.turns }
    requires track { IsTrue (is_open session.now.grid stream.now.track.at) }
    ensures step { result ≡ W.step_from session.now slots.now stream.now }
{
    match stream.slot(session) {
        None => Step::Halt,
        Some(next) => match next.what {
            What::Commit => commit_step(slots, next.turn),
            What::Reveal => turn_step(session, walker, player, slots, bad, stream),
        },
    }
}

/// Goes on over the next frames as long as they fit.
pub(crate) fn walk(
    session: &Session,
    walker: &mut Walker,
    player: PlayerId,
    slots: &[Option<Received>],
    bad: &Option<Finding>,
    from: &Stream,
) -> Stream
    requires player { player < players_of session.now }
    requires length { length slots.now ≡ 2 * session.now.turns }
    requires slots { AreSlots player slots.now from.now.commits from.now.resolved }
    requires agree { W.AgreeBut session.now slots.now bad.now }
    requires stream { W.IsThere session.now player slots.now from.now }
    ensures walked { W.IsWalked session.now player slots.now result }
    ensures slots { AreSlots player slots.now result.commits result.resolved }
{
    session.facts();
    let mut stream = *from;
    loop {
        match next_step(session, walker, player, slots, bad, &stream) {
            Step::Committed => {
                stream = Stream {
                    commits: stream.commits + 1,
                    resolved: stream.resolved,
                    track: stream.track,
                };
            }
            Step::Resolved(track) => {
                stream = Stream {
                    commits: stream.commits,
                    resolved: stream.resolved + 1,
                    track,
                };
            }
            Step::Halt => {
                return stream;
            }
            Step::Illegal(_) => {
                return stream;
            }
        }
    }
}

/// What the reveal of the first turn that isn't resolved shows, if it opens the commitment held and isn't legal.
///
/// The walk may not have come to the reveal, since commitments of later turns have lower places: it is judged all the same.
pub(crate) fn illegal_reveal(
    session: &Session,
    walker: &mut Walker,
    player: PlayerId,
    slots: &[Option<Received>],
    bad: &Option<Finding>,
    stream: &Stream,
) -> Option<Finding>
    requires player { player < players_of session.now }
    requires slots { AreSlots player slots.now stream.now.commits stream.now.resolved }
    requires agree { W.AgreeBut session.now slots.now bad.now }
    requires stream { W.IsThere session.now player slots.now stream.now }
    ensures { result ≡ W.illegal_at session.now slots.now stream.now }
{
    session.facts();
    match turn_step(session, walker, player, slots, bad, stream) {
        Step::Committed => None,
        Step::Resolved(_) => None,
        Step::Halt => None,
        Step::Illegal(clash) => Some(clash),
    }
}
