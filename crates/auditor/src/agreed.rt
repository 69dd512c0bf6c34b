//! The turns of a player in which the logs agree.

ghost use Rattle.std.specs.Prelude.{◌≡◌, ◌<◌, ◌≤◌, ◌+◌, ◌++◌, List, Some, slice_get, length, IsTrue, IfOk, OnOk};
ghost use Rattle.std.specs.Option.{option_to_list};
ghost use Rattle.definitions.specs.declared.logs.Entry.{Entry};
ghost use Rattle.definitions.specs.declared.world.Move.{Move};
ghost use Rattle.definitions.specs.World.{is_open, players_of};
ghost use Rattle.definitions.specs.Findings.{got_known};
ghost use Rattle.definitions.specs.Logs.{got_of, move_shown};
ghost use Rattle.frame_index.specs.Heads.{AreOpen, Stands, front_of};
ghost use Rattle.frame_index.specs.Keeps.{Keeps};
ghost use Rattle.frame_index.specs.Plain.{IsClear};
ghost use Rattle.frame_index.specs.declared.limits.TheConstants.{MOST_LOGS};
ghost use Rattle.auditor.specs.Accords.{accord_of, agreed_in, is_alike};
ghost use Rattle.auditor.specs.Agreed as A;
ghost use Rattle.auditor.specs.Audits.{crossed_logs};
ghost use Rattle.auditor.specs.Reading as R;
ghost use Rattle.auditor.specs.Reading.{IsReadTurn};

use crate::auditor::Auditor;
use crate::common::OwnMoves;
use crate::reading::{Reading, read_on, start};
use crate::turns::resolved_in;
use definitions::{Move, PlayerId, Turn, TurnFrame};
use frame_index::{MOST_LOGS, Seen};
use grid_world::{Session, Stream};
use move_rules::Walker;
use std::alloc::{AllocError, Global};

/// Of some moves the first one, and whether all others are the same.
#[derive(Clone, Copy)]
pub(crate) struct Accord {
    first: Option<Move>,
    same: bool,
}

/// Whether the move is the same as the first one, or there is no first one.
fn is_alike(first: &Option<Move>, mv: &Move) -> bool
    ensures { result ≡ is_alike first.now mv.now }
{
    match first {
        None => true,
        Some(first) => first == mv,
    }
}

/// With one move more, if there is one.
fn with_move(accord: Accord, mv: Option<Move>) -> Accord
    ensures { (ms : List Move) → accord ≡ accord_of ms → result ≡ accord_of (ms ++ option_to_list mv) }
{
    match mv {
        None => accord,
        Some(mv) => Accord {
            first: Some(accord.first.unwrap_or(mv)),
            same: accord.same && is_alike(&accord.first, &mv),
        },
    }
}

/// The one move, if all are the same.
fn agreed_in(accord: Accord) -> Option<Move>
    ensures { result ≡ agreed_in accord }
{
    if accord.same { accord.first } else { None }
}

/// The move that a reveal shows.
fn shown(frame: &TurnFrame) -> Option<Move>
    ensures { result ≡ move_shown frame.now }
{
    match *frame {
        TurnFrame::Commit { .. } => None,
        TurnFrame::Reveal { mv, .. } => Some(mv),
    }
}

/// The move by which the log resolves the turn, by its stream up to the turn's reveal and up to that of the turn behind it.
fn move_in(
    session: &Session,
    walker: &mut Walker,
    player: PlayerId,
    turn: Turn,
    log: u32,
    before: &Stream,
    after: &Stream,
    seen: &[Seen],
) -> Option<Move>
    requires player { player < players_of session.now }
    requires track { IsTrue (is_open session.now.grid before.now.track.at) }
    ensures { (logs : List (List Entry)) (h : List Entry) → Keeps session.now player turn logs seen.now → slice_get logs log ≡ Some h →
        Stands session.now player (got_of player h) (front_of session.now turn) before.now → Stands session.now player (got_of player h) (front_of session.now (turn + 1)) after.now →
        result ≡ slice_get (got_known session.now player h).moves turn }
{
    session.facts();
    if after.resolved <= turn {
        return None;
    }
    let resolved = resolved_in(session, walker, player, &before.track, log, seen)?;
    shown(&resolved.reveal)
}

/// The move by which the log resolves the turn, as the reading has it.
fn read_move(
    session: &Session,
    walker: &mut Walker,
    player: PlayerId,
    turn: Turn,
    log: u32,
    reading: &Reading,
) -> Option<Move>
    requires player { player < players_of session.now }
    requires log { log < MOST_LOGS }
    requires opens { AreOpen session.now reading.now.before }
    ensures { (logs : List (List Entry)) (h : List Entry) → IsReadTurn session.now player logs turn reading.now → slice_get logs log ≡ Some h → result ≡ slice_get (got_known session.now player h).moves turn }
{
    let at = log as usize;
    move_in(
        session,
        walker,
        player,
        turn,
        log,
        &reading.before[at],
        &reading.after[at],
        &reading.seen,
    )
}

/// What the logs show of a player's turn: by the frames that they got, and by those that their owners made.
#[derive(Drop)]
pub(crate) struct Readings {
    got: Reading,
    made: Reading,
}

impl Auditor {
    /// The move by which the log resolves the turn: an owner's own frames are those that it made.
    fn resolved_at(
        &self,
        walker: &mut Walker,
        player: PlayerId,
        turn: Turn,
        log: u32,
        readings: &Readings,
    ) -> Option<Move>
        requires player { player < players_of self.now.session }
        requires log { log < MOST_LOGS }
        requires got { AreOpen self.now.session readings.now.got.before }
        requires made { AreOpen self.now.session readings.now.made.before }
        ensures { (logs : List (List Entry)) → length logs ≡ MOST_LOGS → A.AreOwned self.now.session self.now.owners logs → IsReadTurn self.now.session player logs turn readings.now.got →
            IsReadTurn self.now.session player (crossed_logs logs) turn readings.now.made → result ≡ A.resolved_at self.now.session self.now.owners logs player turn log }
    {
        let own = self.owners[log as usize] == Some(player);
        let reading = if own { &readings.made } else { &readings.got };
        read_move(&self.session, walker, player, turn, log, reading)
    }

    /// The move on which the logs agree.
    fn agreed_move(
        &self,
        walker: &mut Walker,
        player: PlayerId,
        turn: Turn,
        readings: &Readings,
    ) -> Option<Move>
        requires player { player < players_of self.now.session }
        requires got { AreOpen self.now.session readings.now.got.before }
        requires made { AreOpen self.now.session readings.now.made.before }
        ensures { (logs : List (List Entry)) → length logs ≡ MOST_LOGS → A.AreOwned self.now.session self.now.owners logs → IsReadTurn self.now.session player logs turn readings.now.got →
            IsReadTurn self.now.session player (crossed_logs logs) turn readings.now.made → result ≡ A.agreed_move self.now.session self.now.owners logs player turn }
    {
        let mut accord = Accord {
            first: None,
            same: true,
        };
        for log in 0..MOST_LOGS {
            let mv = self.resolved_at(walker, player, turn, log, readings);
            accord = with_move(accord, mv);
        }
        agreed_in(accord)
    }

    /// Reads on to the turn, and puts the move behind the others on which the logs agree, if they do.
    fn put_agreed(
        &self,
        walker: &mut Walker,
        player: PlayerId,
        turn: Turn,
        readings: &mut Readings,
        out: &mut Vec<Move>,
    ) -> Result<(), AllocError>
        requires player { player < players_of self.now.session }
        requires turn { turn < self.now.session.turns }
        requires got { AreOpen self.now.session readings.old.got.after }
        requires made { AreOpen self.now.session readings.old.made.after }
        ensures one { OnOk result (length out.new.items ≤ length out.old.items + 1) }
        ensures got { OnOk result (AreOpen self.now.session readings.new.got.after) }
        ensures made { OnOk result (AreOpen self.now.session readings.new.made.after) }
        ensures put { OnOk result ((logs : List (List Entry)) → R.IsReadable self.now logs → R.AreUpTo self.now player logs turn readings.old →
            R.AreUpTo self.now player logs (turn + 1) readings.new × (out.new.items ≡ out.old.items ++ option_to_list (A.agreed_move self.now.session self.now.owners logs player turn))) }
    {
        read_on(
            &mut readings.got,
            &self.index,
            &self.session,
            walker,
            player,
            turn,
        )?;
        read_on(
            &mut readings.made,
            &self.made,
            &self.session,
            walker,
            player,
            turn,
        )?;
        if let Some(mv) = self.agreed_move(walker, player, turn, readings) {
            out.push(mv)?;
        }
        Ok(())
    }

    /// The moves of the player's agreed turns, in order, where the logs may show different ones.
    fn agreed_each(
        &self,
        alloc: Global,
        walker: &mut Walker,
        player: PlayerId,
    ) -> Result<Vec<Move>, AllocError>
        requires { player < players_of self.now.session }
        ensures few { IfOk result (λ moves. length moves.items ≤ self.now.session.turns) }
        ensures moves { IfOk result (λ moves. (logs : List (List Entry)) → R.IsReadable self.now logs → moves.items ≡ A.agreed_moves self.now.session self.now.owners logs player) }
    {
        let mut moves = Vec::new(alloc);
        let got = start(alloc, &self.index, &self.session, walker, player)?;
        let made = start(alloc, &self.made, &self.session, walker, player)?;
        let mut readings = Readings { got, made };
        for turn in 0..self.session.turns() {
            self.put_agreed(walker, player, turn, &mut readings, &mut moves)?;
        }
        Ok(moves)
    }

    /// The moves of the player's agreed turns, and whether no log shows a finding of it as far as they tell.
    pub(crate) fn agreed_moves(
        &self,
        alloc: Global,
        walker: &mut Walker,
        player: PlayerId,
    ) -> Result<OwnMoves, AllocError>
        requires { player < players_of self.now.session }
        ensures few { IfOk result (λ own. length own.moves.items ≤ self.now.session.turns) }
        ensures clear { IfOk result (λ own. IsTrue own.is_clear → IsClear self.now.session self.now.index player) }
        ensures moves { IfOk result (λ own. (logs : List (List Entry)) → R.IsReadable self.now logs → own.moves.items ≡ A.agreed_moves self.now.session self.now.owners logs player) }
    {
        match self.common_agreed(alloc, walker, player)? {
            Some(own) => Ok(own),
            None => {
                let moves = self.agreed_each(alloc, walker, player)?;
                Ok(OwnMoves {
                    moves,
                    is_clear: false,
                })
            }
        }
    }
}
