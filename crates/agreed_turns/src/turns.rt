//! The turns of one player, by all logs.

ghost use Rattle.std.specs.Prelude.{◌≡◌, ◌<◌, ◌+◌, List, [], length, replicate, IfOk, IfSome, IsTrue};
ghost use Rattle.definitions.specs.declared.frames.TurnFrame.{TurnFrame};
ghost use Rattle.definitions.specs.World.{players_of, is_open};
ghost use Rattle.frame_index.specs.Heads.{Ends};
ghost use Rattle.frame_index.specs.Streams.{IsCommitNext, IsReadFrom};
ghost use Rattle.agreed_turns.specs.Accords.{ones_in};
ghost use Rattle.agreed_turns.specs.Heads as H;
ghost use Rattle.agreed_turns.specs.declared.accords.Accord.{Accord};
ghost use Rattle.agreed_turns.specs.States as S;

use crate::accords::Accords;
use crate::heads::Head;
use definitions::{PlayerId, TurnFrame, What};
use frame_index::FrameIndex;
use grid_world::{Session, Stream};
use move_rules::Walker;
use std::alloc::{AllocError, Global};
use std::marker::Model;

/// How far each log shows the player's stream, and of each turn whether the logs agree.
#[derive(Drop)]
pub(crate) struct PlayerTurns {
    // by the log's number
    heads: Vec<Head>,
    accords: Accords,
}

impl Model for PlayerTurns {
    ghost use Rattle.agreed_turns.specs.States.{PlayerState};

    ghost Value = { PlayerState };

    ghost view = { λ p. record { heads = p.heads.items; accords = p.accords } };
}

/// The stream with the next reveal, whose move is noted; none where the log doesn't show it.
fn with_reveal(
    index: &FrameIndex,
    session: &Session,
    walker: &mut Walker,
    player: PlayerId,
    log: u32,
    stream: &Stream,
    accords: &mut Accords,
) -> Option<Stream>
    requires player { player < players_of session.now }
    requires track { IsTrue (is_open session.now.grid stream.now.track.at) }
    requires turn { stream.now.resolved < session.now.turns }
    requires accords { length accords.old ≡ session.now.turns }
    ensures accords { length accords.new ≡ session.now.turns }
    ensures track { IfSome result (λ r. IsTrue (is_open session.now.grid r.track.at)) }
    ensures longer { IfSome result (λ r. H.left_of session.now r < H.left_of session.now stream.now) }
    ensures on { (fs : List TurnFrame) → H.Shows session.now index.now log player fs → IsReadFrom session.now player fs stream.now → H.IsRevealNext session.now stream.now → H.Steps session.now player fs stream.now result accords.old accords.new }
{
    session.facts();
    let turn = stream.resolved;
    let Some(digest) = index.commit_in(player, turn, log) else {
        return None;
    };
    let Some((mv, track)) = index.opening_in(
        session,
        walker,
        player,
        turn,
        log,
        &stream.track,
        &digest,
    ) else {
        return None;
    };
    accords.note(turn, mv);
    Some(Stream {
        commits: stream.commits,
        resolved: turn + 1,
        track,
    })
}

/// The stream with the next commitment; none where the log doesn't show it.
fn with_commitment(
    index: &FrameIndex,
    session: &Session,
    player: PlayerId,
    log: u32,
    stream: &Stream,
) -> Option<Stream>
    requires { stream.now.commits < session.now.turns }
    ensures track { IfSome result (λ r. r.track ≡ stream.now.track) }
    ensures longer { IfSome result (λ r. H.left_of session.now r < H.left_of session.now stream.now) }
    ensures on { (fs : List TurnFrame) (accords : List Accord) → H.Shows session.now index.now log player fs → IsReadFrom session.now player fs stream.now → IsCommitNext session.now stream.now → H.Steps session.now player fs stream.now result accords accords }
{
    session.facts();
    match index.commit_in(player, stream.commits, log) {
        None => None,
        Some(_) => Some(Stream {
            commits: stream.commits + 1,
            resolved: stream.resolved,
            track: stream.track,
        }),
    }
}

/// The stream with the next place, and if that is a reveal its move is noted; none where the log doesn't show the place.
fn step(
    index: &FrameIndex,
    session: &Session,
    walker: &mut Walker,
    player: PlayerId,
    log: u32,
    stream: &Stream,
    accords: &mut Accords,
) -> Option<Stream>
    requires player { player < players_of session.now }
    requires track { IsTrue (is_open session.now.grid stream.now.track.at) }
    requires accords { length accords.old ≡ session.now.turns }
    ensures accords { length accords.new ≡ session.now.turns }
    ensures track { IfSome result (λ r. IsTrue (is_open session.now.grid r.track.at)) }
    ensures longer { IfSome result (λ r. H.left_of session.now r < H.left_of session.now stream.now) }
    ensures on { (fs : List TurnFrame) → H.Shows session.now index.now log player fs → IsReadFrom session.now player fs stream.now → H.Steps session.now player fs stream.now result accords.old accords.new }
{
    match stream.slot(session) {
        None => None,
        Some(slot) => match slot.what {
            What::Commit => with_commitment(index, session, player, log, stream),
            What::Reveal => with_reveal(index, session, walker, player, log, stream, accords),
        },
    }
}

/// The stream with all places that the log shows, and the moves of its reveals are noted.
fn read_on(
    index: &FrameIndex,
    session: &Session,
    walker: &mut Walker,
    player: PlayerId,
    log: u32,
    stream: &Stream,
    accords: &mut Accords,
) -> Stream
    requires player { player < players_of session.now }
    requires track { IsTrue (is_open session.now.grid stream.now.track.at) }
    requires accords { length accords.old ≡ session.now.turns }
    ensures accords { length accords.new ≡ session.now.turns }
    ensures track { IsTrue (is_open session.now.grid result.track.at) }
    ensures on { (fs : List TurnFrame) → H.Shows session.now index.now log player fs → IsReadFrom session.now player fs stream.now → H.GoesOn session.now player fs stream.now result accords.old accords.new }
    ensures ends { (fs : List TurnFrame) → H.Shows session.now index.now log player fs → IsReadFrom session.now player fs stream.now → Ends session.now player fs result }
{
    let mut at = *stream;
    'places: while let Some(next) = step(index, session, walker, player, log, &at, accords) {
        at = next;
    }
    at
}

impl PlayerTurns {
    /// Of logs without entries.
    pub(crate) fn new(
        alloc: Global,
        session: &Session,
        player: PlayerId,
    ) -> Result<PlayerTurns, AllocError>
        requires { player < players_of session.now }
        ensures sound { IfOk result (λ p. S.IsSound session.now p) }
        ensures new { IfOk result (λ p. S.IsOfPlayer session.now (replicate (players_of session.now) []) player p) }
    {
        session.facts();
        let logs = session.players();
        let mut heads = Vec::with_capacity(alloc, usize::from(logs))?;
        for _ in 0..logs {
            heads.push(Head::new(session, player))?;
        }
        Ok(PlayerTurns {
            heads,
            accords: Accords::new(alloc, session.turns())?,
        })
    }

    /// How many turns are agreed.
    pub(crate) fn agreed(&self) -> u32
        ensures { result ≡ ones_in self.now.accords }
    {
        self.accords.agreed()
    }

    /// An entry of the log of this number has the frame, which is in its player's stream, and the index has taken it: the head goes
    /// on where the frame stands at its next place.
    pub(crate) fn heed(
        &mut self,
        index: &FrameIndex,
        session: &Session,
        walker: &mut Walker,
        player: PlayerId,
        log: PlayerId,
        frame: &TurnFrame,
    )
        requires player { player < players_of session.now }
        requires log { log < players_of session.now }
        requires sound { S.IsSound session.now self.old }
        ensures sound { S.IsSound session.now self.new }
        ensures heeded { S.Heeds session.now index.now player log frame.now self.old self.new }
    {
        let head = self.heads[usize::from(log)];
        if !head.is_met_by(index, session, walker, player, frame) {
            return;
        }
        let log = u32::from(log);
        let stream = read_on(
            index,
            session,
            walker,
            player,
            log,
            &head.stream,
            &mut self.accords,
        );
        let held = index.commit_in(player, stream.resolved, log);
        self.heads[log as usize] = Head { stream, held };
    }
}
