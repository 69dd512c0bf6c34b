//! The least pair of spots that shows an illegal move.

ghost use Rattle.std.specs.Prelude.{◌≡◌, ◌<◌, ◌≤◌, List, Some, slice_get, length, IsTrue, IfSome};
ghost use Rattle.definitions.specs.declared.findings.Kind.{Kind};
ghost use Rattle.definitions.specs.declared.logs.Entry.{Entry};
ghost use Rattle.definitions.specs.Findings.{finding_at};
ghost use Rattle.definitions.specs.Logs.{got_of};
ghost use Rattle.definitions.specs.World.{players_of, is_open};
ghost use Rattle.definition_laws.specs.Members.{Has};
ghost use Rattle.frame_index.specs.Heads as H;
ghost use Rattle.frame_index.specs.InLog as N;
ghost use Rattle.frame_index.specs.Keeps.{Keeps, finding_by};
ghost use Rattle.frame_index.specs.declared.seen.Seen.{Seen};

use crate::heads::Heads;
use crate::in_log::first_in;
use crate::judged::least_wrong;
use crate::least::in_order;
use crate::limits::MOST_LOGS;
use crate::seen::Seen;
use definitions::{PlayerId, Spot, Turn};
use grid_world::{Session, Stream};
use move_rules::Walker;

/// The spots of the log's first commitment of the turn and of its first reveal that opens it and isn't legal, if it has both.
fn illegal_in(
    session: &Session,
    walker: &mut Walker,
    player: PlayerId,
    turn: Turn,
    seen: &[Seen],
    log: u32,
    stream: &Stream,
) -> Option<(Spot, Spot)>
    requires player { player < players_of session.now }
    requires track { IsTrue (is_open session.now.grid stream.now.track.at) }
    ensures shows { (logs : List (List Entry)) (h : List Entry) → turn < session.now.turns → Keeps session.now player turn logs seen.now → slice_get logs log ≡ Some h → H.Stands session.now player (got_of player h) (H.front_of session.now turn) stream.now → N.ShowsIn session.now player turn logs seen.now log result }
    ensures kept { IfSome result (λ p. (k : Seen) × Has seen.now k × (k.spot.log ≡ log)) }
{
    session.facts();
    if stream.resolved != turn || stream.commits <= turn {
        return None;
    }
    let Some(commit) = first_in(seen, log, turn) else {
        return None;
    };
    let Some(wrong) = least_wrong(
        session,
        walker,
        player,
        &stream.track,
        &commit.digest,
        log,
        seen,
    ) else {
        return None;
    };
    Some(in_order(&wrong, &commit))
}

/// The spots of the finding that a player's move of the turn isn't legal, where each different frame of the turn is kept with
/// its first spot in each log that got it, and each log's stream has come to the turn's reveal, if it comes so far.
pub(crate) fn illegal(
    session: &Session,
    walker: &mut Walker,
    player: PlayerId,
    turn: Turn,
    seen: &[Seen],
    heads: &Heads,
) -> Option<(Spot, Spot)>
    requires player { player < players_of session.now }
    requires tracks { H.AreOpen session.now heads.now }
    ensures { (logs : List (List Entry)) → length logs ≤ MOST_LOGS → turn < session.now.turns → Keeps session.now player turn logs seen.now → H.Stand session.now player logs (H.front_of session.now turn) heads.now → finding_by player turn Kind.Illegal result ≡ finding_at session.now logs player turn Kind.Illegal }
{
    for log in 0..MOST_LOGS {
        let stream = heads[log as usize];
        let found = illegal_in(session, walker, player, turn, seen, log, &stream);
        if found.is_some() {
            return found;
        }
    }
    None
}
