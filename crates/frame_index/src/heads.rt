//! What each log shows of a player's stream, place by place.

ghost use Rattle.std.specs.Prelude.{◌≡◌, ◌<◌, ◌≤◌, ◌+◌, ◌*◌, List, Some, slice_get, IsTrue, IfSome, OnOk};
ghost use Rattle.definitions.specs.declared.logs.Entry.{Entry};
ghost use Rattle.definitions.specs.Logs.{got_of};
ghost use Rattle.definitions.specs.World.{players_of, is_open};
ghost use Rattle.definitions.specs.declared.limits.TheConstants.{MOST_TURNS};
ghost use Rattle.frame_index.specs.Streams.{IsCommitNext, IsNext, IsReadFrom};
ghost use Rattle.frame_index.specs.Frames as F;
ghost use Rattle.frame_index.specs.Heads as H;
ghost use Rattle.frame_index.specs.Keeps.{Keeps};

use crate::frames::FrameIndex;
use crate::in_log::first_commit_in;
use crate::judged::first_opening;
use crate::limits::MOST_LOGS;
use crate::seen::Seen;
use crate::streams::start_stream;
use definitions::{Place, PlayerId, Turn, What};
use grid_world::{Session, Stream};
use move_rules::Walker;
use std::alloc::AllocError;

/// By the log's number: a player's stream as far as the log shows it, up to a place that all logs have come to.
pub type Heads = [Stream; MOST_LOGS as usize];

/// The stream with the next commitment; none where the log didn't get it.
fn next_commitment(
    session: &Session,
    player: PlayerId,
    seen: &[Seen],
    log: u32,
    stream: &Stream,
) -> Option<Stream>
    requires { stream.now.commits < MOST_TURNS }
    ensures next { (logs : List (List Entry)) (h : List Entry) → Keeps session.now player stream.now.commits logs seen.now → slice_get logs log ≡ Some h → IsReadFrom session.now player (got_of player h) stream.now → IsCommitNext session.now stream.now → IsNext session.now player (got_of player h) stream.now result }
    ensures numbers { IfSome result (λ r. (r.commits ≡ stream.now.commits + 1) × (r.resolved ≡ stream.now.resolved) × (r.track ≡ stream.now.track)) }
{
    match first_commit_in(seen, log, stream.commits) {
        None => None,
        Some(_) => Some(Stream {
            commits: stream.commits + 1,
            resolved: stream.resolved,
            track: stream.track,
        }),
    }
}

/// The stream with the next reveal, which opens the commitment held of its turn; none where the log didn't get it.
fn next_reveal(
    session: &Session,
    walker: &mut Walker,
    player: PlayerId,
    seen: &[Seen],
    log: u32,
    stream: &Stream,
) -> Option<Stream>
    requires player { player < players_of session.now }
    requires track { IsTrue (is_open session.now.grid stream.now.track.at) }
    requires resolved { stream.now.resolved < MOST_TURNS }
    ensures next { (logs : List (List Entry)) (h : List Entry) → Keeps session.now player stream.now.resolved logs seen.now → slice_get logs log ≡ Some h → IsReadFrom session.now player (got_of player h) stream.now → stream.now.resolved < session.now.turns → (IsCommitNext session.now stream.now → ⊥) → IsNext session.now player (got_of player h) stream.now result }
    ensures numbers { IfSome result (λ r. (r.commits ≡ stream.now.commits) × (r.resolved ≡ stream.now.resolved + 1)) }
    ensures track { IfSome result (λ r. IsTrue (is_open session.now.grid r.track.at)) }
{
    session.facts();
    let Some(digest) = first_commit_in(seen, log, stream.resolved) else {
        return None;
    };
    let Some(track) = first_opening(session, walker, player, &stream.track, &digest, log, seen)
    else {
        return None;
    };
    Some(Stream {
        commits: stream.commits,
        resolved: stream.resolved + 1,
        track,
    })
}

/// The stream with the place, where it has come to the place and the log got its frame.
fn step(
    session: &Session,
    walker: &mut Walker,
    player: PlayerId,
    seen: &[Seen],
    log: u32,
    place: Place,
    stream: &Stream,
) -> Stream
    requires player { player < players_of session.now }
    requires track { IsTrue (is_open session.now.grid stream.now.track.at) }
    requires place { place < 2 * session.now.turns }
    ensures stands { (logs : List (List Entry)) (h : List Entry) → Keeps session.now player (H.turn_at session.now place) logs seen.now → slice_get logs log ≡ Some h → H.Stands session.now player (got_of player h) place stream.now → H.Stands session.now player (got_of player h) (place + 1) result }
    ensures track { IsTrue (is_open session.now.grid result.track.at) }
{
    session.facts();
    if !stream.is_at(place) {
        return *stream;
    }
    match stream.slot(session) {
        None => *stream,
        Some(next) => match next.what {
            What::Commit => next_commitment(session, player, seen, log, stream).unwrap_or(*stream),
            What::Reveal => {
                next_reveal(session, walker, player, seen, log, stream).unwrap_or(*stream)
            }
        },
    }
}

/// Reads the place in all logs, by what is kept of its turn.
fn step_all(
    session: &Session,
    walker: &mut Walker,
    player: PlayerId,
    seen: &[Seen],
    place: Place,
    heads: &mut Heads,
)
    requires player { player < players_of session.now }
    requires place { place < 2 * session.now.turns }
    requires tracks { H.AreOpen session.now heads.old }
    ensures tracks { H.AreOpen session.now heads.new }
    ensures stand { (logs : List (List Entry)) → Keeps session.now player (H.turn_at session.now place) logs seen.now → H.Stand session.now player logs place heads.old → H.Stand session.now player logs (place + 1) heads.new }
{
    for log in 0..MOST_LOGS {
        let stream = heads[log as usize];
        heads[log as usize] = step(session, walker, player, seen, log, place, &stream);
    }
}

/// Streams of the player of which no place is there, with which the reading of logs begins.
pub fn start_heads(session: &Session, player: PlayerId) -> Heads
    requires { player < players_of session.now }
    ensures tracks { H.AreOpen session.now result }
    ensures stand { (logs : List (List Entry)) → H.Stand session.now player logs 0 result }
{
    session.facts();
    [start_stream(session, player); MOST_LOGS as usize]
}

/// Reads the place in all logs where it is that of a commitment, and leaves it where it isn't.
fn read_commitment(
    index: &FrameIndex,
    session: &Session,
    walker: &mut Walker,
    player: PlayerId,
    place: Place,
    seen: &mut Vec<Seen>,
    heads: &mut Heads,
) -> Result<(), AllocError>
    requires player { player < players_of session.now }
    requires tracks { H.AreOpen session.now heads.old }
    ensures tracks { H.AreOpen session.now heads.new }
    ensures stand { OnOk result ((logs : List (List Entry)) → F.IsIndex session.now logs index.now → H.Stand session.now player logs place heads.old → H.Stand session.now player logs (H.past_commitment session.now place) heads.new) }
{
    session.facts();
    let Some(slot) = session.slot_at(place) else {
        return Ok(());
    };
    match slot.what {
        What::Reveal => Ok(()),
        What::Commit => {
            index.gather(player, slot.turn, seen)?;
            step_all(session, walker, player, seen, place, heads);
            Ok(())
        }
    }
}

/// Reads the commitments that come before the first reveal. `seen` is room for what is kept of a turn, and an error comes where
/// its allocator has no memory.
pub fn read_first(
    index: &FrameIndex,
    session: &Session,
    walker: &mut Walker,
    player: PlayerId,
    seen: &mut Vec<Seen>,
    heads: &mut Heads,
) -> Result<(), AllocError>
    requires player { player < players_of session.now }
    requires tracks { H.AreOpen session.now heads.old }
    ensures tracks { H.AreOpen session.now heads.new }
    ensures stand { OnOk result ((logs : List (List Entry)) → F.IsIndex session.now logs index.now → H.Stand session.now player logs 0 heads.old → H.Stand session.now player logs (H.front_of session.now 0) heads.new) }
{
    session.facts();
    for place in 0..session.reveal_place(0) {
        read_commitment(index, session, walker, player, place, seen, heads)?;
    }
    Ok(())
}

/// Reads the turn's reveal, by what is kept of the turn, and the commitment that comes before the next reveal. `seen` has what is
/// kept of the turn, which is lost; an error comes where its allocator has no memory.
pub fn read_turn(
    index: &FrameIndex,
    session: &Session,
    walker: &mut Walker,
    player: PlayerId,
    turn: Turn,
    seen: &mut Vec<Seen>,
    heads: &mut Heads,
) -> Result<(), AllocError>
    requires player { player < players_of session.now }
    requires turn { turn < session.now.turns }
    requires tracks { H.AreOpen session.now heads.old }
    ensures tracks { H.AreOpen session.now heads.new }
    ensures stand { OnOk result ((logs : List (List Entry)) → F.IsIndex session.now logs index.now → Keeps session.now player turn logs seen.old.items → H.Stand session.now player logs (H.front_of session.now turn) heads.old → H.Stand session.now player logs (H.front_of session.now (turn + 1)) heads.new) }
{
    session.facts();
    let place = session.reveal_place(turn);
    step_all(session, walker, player, seen, place, heads);
    read_commitment(index, session, walker, player, place + 1, seen, heads)
}
