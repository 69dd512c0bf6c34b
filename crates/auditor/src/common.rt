//! The turns of a player in which the logs agree, where all that they show of it is one play.

ghost use Rattle.std.specs.Prelude.{◌≡◌, ◌<◌, ◌≤◌, ◌+◌, ◌++◌, ℕ, List, None, length, not, slice_get, IfOk, IfSome, IsTrue, OnOk};
ghost use Rattle.std.specs.Option.{option_to_list};
ghost use Rattle.definitions.specs.declared.logs.Entry.{Entry};
ghost use Rattle.definitions.specs.Lists.{item_or};
ghost use Rattle.definitions.specs.World.{players_of};
ghost use Rattle.frame_index.specs.Plain.{IsClear, is_among};
ghost use Rattle.frame_index.specs.declared.limits.TheConstants.{MOST_LOGS};
ghost use Rattle.auditor.specs.Accords.{is_own, joined};
ghost use Rattle.auditor.specs.Agreed as A;
ghost use Rattle.auditor.specs.Reading as R;

use crate::auditor::Auditor;
use definitions::{Move, PlayerId, Turn};
use frame_index::{Chosen, MOST_LOGS, common_moves};
use move_rules::Walker;
use std::alloc::{AllocError, Global};

/// The move, where both are the same or one of them is there alone.
fn joined(one: Option<Move>, other: Option<Move>) -> Option<Move>
    ensures { result ≡ joined one other }
{
    match one {
        None => other,
        Some(mv) => match other {
            None => Some(mv),
            Some(second) => { if mv == second { Some(mv) } else { None } }
        },
    }
}

/// The move that stands at the turn; none past the last one.
fn move_at(moves: &[Move], turn: Turn) -> Option<Move>
    ensures { result ≡ slice_get moves.now turn }
{
    moves.get(turn as usize).copied()
}

/// The moves of a player by the frames that other players' logs got, and by those that its own log made.
#[derive(Drop)]
struct Plays {
    got: Vec<Move>,
    made: Vec<Move>,
}

/// The moves of a player's agreed turns, in order, and whether it is known by them that no log shows a finding of it.
#[derive(Drop)]
pub(crate) struct OwnMoves {
    pub moves: Vec<Move>,
    pub is_clear: bool,
}

impl Auditor {
    /// Which logs are the player's own.
    fn own_logs(&self, player: PlayerId) -> Chosen
        ensures { (i : ℕ) → i < MOST_LOGS → is_among result i ≡ is_own (item_or self.now.owners i None) player }
    {
        let mut chosen = [false; MOST_LOGS as usize];
        for at in 0..MOST_LOGS as usize {
            chosen[at] = self.owners[at] == Some(player);
        }
        chosen
    }

    /// Which logs aren't.
    fn other_logs(&self, player: PlayerId) -> Chosen
        ensures { (i : ℕ) → i < MOST_LOGS → is_among result i ≡ not (is_own (item_or self.now.owners i None) player) }
    {
        let mut chosen = [false; MOST_LOGS as usize];
        for at in 0..MOST_LOGS as usize {
            chosen[at] = self.owners[at] != Some(player);
        }
        chosen
    }

    /// The player's moves, where all that logs got of it is one legal play, and all that it made too.
    fn plays(
        &self,
        alloc: Global,
        walker: &mut Walker,
        player: PlayerId,
    ) -> Result<Option<Plays>, AllocError>
        requires { player < players_of self.now.session }
        ensures clear { IfOk result (λ o. IfSome o (λ p. length p.got.items ≡ self.now.session.turns → IsClear self.now.session self.now.index player)) }
        ensures plays { IfOk result (λ o. IfSome o (λ p. (logs : List (List Entry)) → R.IsReadable self.now logs → A.ArePlays self.now.session self.now.owners logs player p.got.items p.made.items)) }
    {
        let mut got = Vec::new(alloc);
        let others = self.other_logs(player);
        if !common_moves(
            &self.index,
            &self.session,
            walker,
            player,
            &others,
            &mut got,
        )? {
            return Ok(None);
        }
        let mut made = Vec::new(alloc);
        let own = self.own_logs(player);
        if !common_moves(&self.made, &self.session, walker, player, &own, &mut made)? {
            return Ok(None);
        }
        Ok(Some(Plays { got, made }))
    }

    /// Puts the move of the turn behind the others on which the plays agree, if they do.
    fn put_joined(plays: &Plays, turn: Turn, out: &mut Vec<Move>) -> Result<(), AllocError>
        ensures put { OnOk result (out.new.items ≡ out.old.items ++ option_to_list (joined (slice_get plays.now.got.items turn) (slice_get plays.now.made.items turn))) }
        ensures one { OnOk result (length out.new.items ≤ length out.old.items + 1) }
    {
        if let Some(mv) = joined(move_at(&plays.got, turn), move_at(&plays.made, turn)) {
            out.push(mv)?;
        }
        Ok(())
    }

    /// The moves of the player's agreed turns, in order, where all that logs show of it is one play; none where it isn't.
    pub(crate) fn common_agreed(
        &self,
        alloc: Global,
        walker: &mut Walker,
        player: PlayerId,
    ) -> Result<Option<OwnMoves>, AllocError>
        requires { player < players_of self.now.session }
        ensures few { IfOk result (λ o. IfSome o (λ own. length own.moves.items ≤ self.now.session.turns)) }
        ensures clear { IfOk result (λ o. IfSome o (λ own. IsTrue own.is_clear → IsClear self.now.session self.now.index player)) }
        ensures moves { IfOk result (λ o. IfSome o (λ own. (logs : List (List Entry)) → R.IsReadable self.now logs → own.moves.items ≡ A.agreed_moves self.now.session self.now.owners logs player)) }
    {
        let Some(plays) = self.plays(alloc, walker, player)? else {
            return Ok(None);
        };
        let mut moves = Vec::new(alloc);
        for turn in 0..self.session.turns() {
            Auditor::put_joined(&plays, turn, &mut moves)?;
        }
        let is_clear = plays.got.len() == self.session.turns() as usize;
        Ok(Some(OwnMoves { moves, is_clear }))
    }
}
