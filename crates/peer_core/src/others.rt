//! What a peer knows of the other players: a window of the frames of each, and for whom the peer waits.

ghost use Rattle.std.specs.Prelude.{◌≡◌, ◌≢◌, ◌≤◌, ◌<◌, ◌+◌, ◌^◌, [], length, map, replicate, slice_get, IsTrue, IfOk};
ghost use Rattle.std.specs.List.{list_all};
ghost use Rattle.definitions.specs.World.{players_of, is_open};
ghost use Rattle.definitions.specs.Meets.{cell_before};
ghost use Rattle.definitions.specs.Findings.{is_clean};
ghost use Rattle.definitions.specs.Answers.{got_answer, is_of_another};
ghost use Rattle.definitions.specs.Honest.{IsHonest, made_count};
ghost use Rattle.definitions.specs.Honest as O;
ghost use Rattle.definitions.specs.Needs as N;
ghost use Rattle.peer_window.specs.Logged.{answer_of_offer};
ghost use Rattle.wait_rule.specs.Waiting.{no_view};
ghost use Rattle.peer_core.specs.OwnTracks.{AreOwnTracks};
ghost use Rattle.peer_core.specs.Others.{AreOthers, AreOpened, AreCleared, view_of};
ghost use Rattle.peer_core.specs.Settling.{unheld};
ghost use Rattle.peer_core.specs.Views as V;

use crate::stages::next_stage;
use crate::views::PlayerView;
use definitions::{Cell, Entry, GotAnswer, Move, Place, PlayerId, Track, Turn, TurnFrame};
use grid_world::Session;
use move_rules::Walker;
use peer_window::{Offer, Window};
use std::alloc::{AllocError, Global};
use std::marker::Model;
use wait_rule::{NeedList, Stage, View, WaitRule};

/// What the rule of waiting is told of a player.
fn view_of(window: &Window) -> View
    ensures { result ≡ view_of window.now }
{
    View {
        resolved: window.resolved(),
        next: window.next(),
        commits: window.commits(),
    }
}

/// The answer to a frame that a window's answer is.
fn answer_of(offer: &Offer) -> GotAnswer
    ensures { result ≡ answer_of_offer offer.now }
{
    match *offer {
        Offer::Taken => GotAnswer::Taken,
        Offer::Stashed => GotAnswer::Stashed,
        Offer::Same => GotAnswer::Same,
        Offer::Far => GotAnswer::Far,
        Offer::Conflict(finding) => GotAnswer::Caught(finding),
    }
}

/// The windows of all players of a session, none of whom sent a frame.
fn open_windows(alloc: Global, session: &Session) -> Result<Vec<Window>, AllocError>
    ensures { IfOk result (λ ws. AreOpened session.now ws.items) }
{
    let mut windows = Vec::with_capacity(alloc, usize::from(session.players()))?;
    for player in 0..session.players() {
        windows.push(Window::new(alloc, session, player)?)?;
    }
    Ok(windows)
}

/// What the rule of waiting is told of a player of whom nothing came.
const BLANK: View = View {
    resolved: 0,
    next: 0,
    commits: 0,
};

/// The same of all players.
fn blank_views(alloc: Global, session: &Session) -> Result<Vec<View>, AllocError>
    ensures { IfOk result (λ vs. vs.items ≡ replicate (players_of session.now) no_view) }
{
    vec![in alloc; BLANK; usize::from(session.players())]
}

/// The same of a player, as if no commitment to a turn that isn't resolved were held.
fn unheld(view: View) -> View
    ensures { result ≡ unheld view }
{
    View {
        resolved: view.resolved,
        next: view.next,
        commits: view.resolved,
    }
}

/// The windows of all players, what the rule of waiting is told of them, and the rule. The peer's own are never asked.
#[derive(Drop)]
pub(crate) struct Others {
    windows: Vec<Window>,
    views: Vec<View>,
    rule: WaitRule,
    // the views without commitments to turns that aren't resolved, and room for those who keep a turn from being settled
    bare: Vec<View>,
    keeping: NeedList,
}

impl Model for Others {
    ghost use Rattle.peer_core.specs.Others.{Known};

    ghost Value = { Known };

    ghost view = { λ o. record { windows = o.windows.items; views = o.views.items; rule = o.rule } };

    ghost use Rattle.std.specs.Prelude.{◌≡◌, map};
    ghost use Rattle.peer_core.specs.Settling.{unheld};

    ghost invariant = { λ o. o.bare.items ≡ map unheld o.views.items };
}

impl Others {
    /// What is known where the log of player `_me` has no entry. All memory is taken here.
    pub(crate) fn new(alloc: Global, session: &Session, _me: PlayerId) -> Result<Others, AllocError>
        ensures { IfOk result (λ o. AreOthers session.now _me [] o) }
    {
        let windows = open_windows(alloc, session)?;
        let views = blank_views(alloc, session)?;
        let rule = WaitRule::new(alloc, session)?;
        let bare = blank_views(alloc, session)?;
        Ok(Others {
            windows,
            views,
            rule,
            bare,
            keeping: NeedList::new(),
        })
    }

    /// Forgets what came of one other player, where nothing is left of those before it.
    fn clear_player(&mut self, session: &Session, _me: PlayerId, player: PlayerId)
        requires player { player < players_of session.now }
        requires other { player ≢ _me }
        requires cleared { AreCleared session.now _me player self.old }
        ensures cleared { AreCleared session.now _me (player + 1) self.new }
    {
        session.facts();
        let at = usize::from(player);
        self.windows[at].clear(session);
        self.views[at] = BLANK;
        self.bare[at] = BLANK;
        self.rule.resolved(session, player, session.start(player));
    }

    /// Forgets all that came, in the room that it had: the tables are as `new` gives them.
    pub(crate) fn clear(&mut self, session: &Session, me: PlayerId, _entries: &[Entry])
        requires others { AreOthers session.now me _entries.now self.old }
        ensures others { AreOthers session.now me [] self.new }
    {
        for player in 0..session.players() {
            if player != me {
                self.clear_player(session, me, player);
            }
        }
    }

    /// Offers a frame of another player, which the log of player `_me` may get as its next entry.
    pub(crate) fn offer(
        &mut self,
        session: &Session,
        walker: &mut Walker,
        _me: PlayerId,
        entries: &[Entry],
        from: PlayerId,
        frame: &TurnFrame,
    ) -> GotAnswer
        requires others { AreOthers session.now _me entries.now self.old }
        requires clean { IsTrue (is_clean session.now entries.now) }
        requires from { IsTrue (is_of_another session.now _me from frame.now) }
        requires few { length entries.now < 2 ^ 32 }
        ensures answer { result ≡ got_answer session.now _me entries.now from frame.now }
        ensures others { AreOthers session.now _me (V.with_got session.now _me entries.now from frame.now) self.new }
    {
        session.facts();
        let at = usize::from(from);
        let offer = self.windows[at].offer(session, walker, frame, entries.len() as u32);
        let view = view_of(&self.windows[at]);
        let cell = self.windows[at].track().at;
        self.views[at] = view;
        self.bare[at] = unheld(view);
        self.rule.resolved(session, from, cell);
        answer_of(&offer)
    }

    /// Makes `out` the list of those for whom the owner of the log waits, by rising player.
    pub(crate) fn find_needs(
        &mut self,
        session: &Session,
        me: PlayerId,
        entries: &[Entry],
        made: Place,
        tracks: &[Track],
        out: &mut NeedList,
    )
        requires owner { me < players_of session.now }
        requires honest { IsHonest session.now me entries.now }
        requires made { made ≡ made_count entries.now }
        requires tracks { AreOwnTracks session.now me entries.now tracks.now }
        requires others { AreOthers session.now me entries.now self.old }
        ensures needs { out.new ≡ N.needs session.now me entries.now }
        ensures others { AreOthers session.now me entries.now self.new }
    {
        let stage = next_stage(session, me, entries, made, tracks);
        self.rule
            .needs(session, me, stage, self.views.as_slice(), out);
    }

    /// Whether each other player is resolved in the turn, before which the owner of the log stood at this cell, or doesn't meet
    /// the owner in it.
    pub(crate) fn let_on(
        &mut self,
        session: &Session,
        me: PlayerId,
        _entries: &[Entry],
        turn: Turn,
        at: Cell,
    ) -> bool
        requires owner { me < players_of session.now }
        requires others { AreOthers session.now me _entries.now self.old }
        requires turn { turn < session.now.turns }
        requires at { at ≡ cell_before session.now me _entries.now me turn }
        requires open { IsTrue (is_open session.now.grid at) }
        ensures lets { result ≡ list_all (O.lets_commit session.now me _entries.now turn) (O.others session.now me) }
        ensures others { AreOthers session.now me _entries.now self.new }
    {
        // as if its commitment weren't held, each player that isn't resolved in the turn and meets the owner keeps it waiting
        let stage = Stage::Reveal { turn, at };
        let views = self.bare.as_slice();
        self.rule
            .needs(session, me, stage, views, &mut self.keeping);
        self.keeping.as_slice().is_empty()
    }

    /// Makes `out` the moves of the turn that the players' windows show, in order of player.
    pub(crate) fn moves_at(&self, turn: Turn, out: &mut [Option<Move>])
        requires { length out.old ≡ length self.now.windows }
        ensures { out.new ≡ map (λ w. slice_get w.known.moves turn) self.now.windows }
    {
        for at in 0..out.len() {
            out[at] = self.windows[at].move_at(turn);
        }
    }

    /// What the log shows of another player.
    pub(crate) fn player(
        &self,
        _session: &Session,
        _me: PlayerId,
        _entries: &[Entry],
        player: PlayerId,
    ) -> PlayerView
        requires player { player < players_of _session.now }
        requires other { player ≢ _me }
        requires others { AreOthers _session.now _me _entries.now self.now }
        ensures { result ≡ V.player_view _session.now _me _entries.now player }
    {
        let window = &self.windows[usize::from(player)];
        PlayerView {
            turns: window.resolved(),
            track: window.track(),
            next: window.next(),
        }
    }
}
