//! How many own turns are settled, and what they count.

ghost use Rattle.std.specs.Prelude.{◌≡◌, ◌≤◌, ◌<◌, ◌+◌, length, IsTrue, IfOk, Some};
ghost use Rattle.definitions.specs.World.{players_of, is_open};
ghost use Rattle.definitions.specs.Lists.{is_empty};
ghost use Rattle.definitions.specs.Places.{slot_at};
ghost use Rattle.definitions.specs.Logs as L;
ghost use Rattle.definitions.specs.Held.{resolved_count};
ghost use Rattle.definitions.specs.Meets.{cell_before};
ghost use Rattle.definitions.specs.Honest.{IsHonest, made_count};
ghost use Rattle.definitions.specs.Needs as N;
ghost use Rattle.definitions.specs.Settled as D;
ghost use Rattle.playout.specs.Playing.{fresh, standing_of};
ghost use Rattle.peer_core.specs.OwnTracks.{AreOwnTracks};
ghost use Rattle.peer_core.specs.Others.{AreOthers};
ghost use Rattle.peer_core.specs.Scoring.{own_move};
ghost use Rattle.peer_core.specs.Settling.{IsCounted, IsCounting};

use crate::others::Others;
use definitions::{Cell, Entry, Move, Opening, Place, PlayerId, Track, Turn, What};
use grid_world::Session;
use playout::{Playout, Score};
use std::alloc::{AllocError, Global};
use std::marker::Model;

/// The settled turns that were counted, from the first one on without a gap, and what they count.
#[derive(Drop)]
pub(crate) struct Settling {
    playout: Playout,
    // room for the moves of a turn, one of each player
    moves: Vec<Option<Move>>,
}

impl Model for Settling {
    ghost use Rattle.std.specs.Prelude.{◌≡◌, length};
    ghost use Rattle.playout.specs.Playing.{Played};

    ghost Value = { Played };

    ghost view = { λ s. s.playout };

    ghost invariant = { λ s. length s.moves.items ≡ length s.playout.standings };
}

impl Settling {
    /// No turn was counted yet. All memory is taken here.
    pub(crate) fn new(alloc: Global, session: &Session) -> Result<Settling, AllocError>
        ensures { IfOk result (λ s. s ≡ fresh session.now) }
    {
        let playout = Playout::new(alloc, session)?;
        let moves = vec![in alloc; None; usize::from(session.players())]?;
        Ok(Settling { playout, moves })
    }

    /// Counts no turn any more: all is as `new` gives it.
    pub(crate) fn restart(&mut self, session: &Session)
        requires players { length self.old.standings ≡ players_of session.now }
        ensures { self.new ≡ fresh session.now }
    {
        self.playout.restart(session);
    }

    /// How many turns were counted.
    pub(crate) fn turns(&self) -> u32
        ensures { result ≡ self.now.turns }
    {
        self.playout.turns()
    }

    /// What the player gave and took in them.
    pub(crate) fn score(&self, player: PlayerId) -> Score
        requires { player < length self.now.standings }
        ensures { result ≡ (standing_of self.now player).score }
    {
        self.playout.score(player)
    }

    /// Counts the next turn, which is settled, and in which this was the own move.
    fn count(
        &mut self,
        others: &Others,
        session: &Session,
        me: PlayerId,
        _entries: &[Entry],
        own: &Move,
    )
        requires owner { me < players_of session.now }
        requires others { AreOthers session.now me _entries.now others.now }
        requires counting { IsCounting session.now me _entries.now self.old }
        requires left { self.old.turns < session.now.turns }
        requires settled { IsTrue (D.is_settled session.now me _entries.now self.old.turns) }
        requires own { own.now ≡ own_move session.now me _entries.now self.old.turns }
        ensures counting { IsCounting session.now me _entries.now self.new }
        ensures turns { self.new.turns ≡ self.old.turns + 1 }
    {
        others.moves_at(self.playout.turns(), &mut self.moves);
        self.playout
            .own_turn(session, me, own, self.moves.as_slice());
    }
}

/// Whether the own frame of this place is the commitment that waits for the turn's frames.
fn waits_for(session: &Session, place: Place, turn: Turn) -> bool
    requires { turn < session.now.turns }
    ensures { IsTrue result → slot_at session.now place ≡ Some (record { what = What.Commit; turn = turn + session.now.ahead }) }
{
    session.facts();
    match session.slot_at(place) {
        None => false,
        Some(slot) => match slot.what {
            What::Commit => slot.turn == turn + session.ahead(),
            What::Reveal => false,
        },
    }
}

/// Whether the own turn, whose reveal is made, is settled. Mostly the next own frame is the commitment that waits for the turn,
/// and it is known for whom that waits; only for the last turns, for which no commitment waits, the others are asked.
fn is_settled(
    others: &mut Others,
    session: &Session,
    me: PlayerId,
    entries: &[Entry],
    made: Place,
    no_needs: bool,
    turn: Turn,
    at: Cell,
) -> bool
    requires owner { me < players_of session.now }
    requires honest { IsHonest session.now me entries.now }
    requires made { made ≡ made_count entries.now }
    requires others { AreOthers session.now me entries.now others.old }
    requires no_needs { no_needs ≡ is_empty (N.needs session.now me entries.now) }
    requires within { turn < session.now.turns }
    requires revealed { turn < resolved_count session.now me entries.now me }
    requires at { at ≡ cell_before session.now me entries.now me turn }
    requires open { IsTrue (is_open session.now.grid at) }
    ensures settled { result ≡ D.is_settled session.now me entries.now turn }
    ensures others { AreOthers session.now me entries.now others.new }
{
    session.facts();
    if waits_for(session, made, turn) {
        no_needs
    } else {
        others.let_on(session, me, entries, turn, at)
    }
}

/// Counts the turns that are settled and weren't counted yet, up to the first one that isn't settled.
pub(crate) fn settle(
    settling: &mut Settling,
    others: &mut Others,
    session: &Session,
    me: PlayerId,
    entries: &[Entry],
    openings: &[Opening],
    made: Place,
    tracks: &[Track],
    no_needs: bool,
)
    requires owner { me < players_of session.now }
    requires honest { IsHonest session.now me entries.now }
    requires openings { openings.now ≡ L.chosen me entries.now }
    requires made { made ≡ made_count entries.now }
    requires tracks { AreOwnTracks session.now me entries.now tracks.now }
    requires others { AreOthers session.now me entries.now others.old }
    requires no_needs { no_needs ≡ is_empty (N.needs session.now me entries.now) }
    requires counting { IsCounting session.now me entries.now settling.old }
    ensures counted { IsCounted session.now me entries.now settling.new }
    ensures others { AreOthers session.now me entries.now others.new }
{
    session.facts();
    let revealed = session.reveals_below(made);
    for turn in settling.turns()..revealed {
        let at = tracks[turn as usize].at;
        if !is_settled(others, session, me, entries, made, no_needs, turn, at) {
            return;
        }
        let own = openings[turn as usize].mv;
        settling.count(others, session, me, entries, &own);
    }
}
