//! A peer, and what it may do.

ghost use Rattle.std.specs.Prelude.{◌≡◌, ◌<◌, ◌≤◌, ◌+◌, ◌*◌, [], ◌∷◌, ◌++◌, length, Some, None, not, IsTrue, IfOk, OnOk, OnErr, slice_get, take, drop};
ghost use Rattle.definitions.specs.World.{players_of};
ghost use Rattle.definitions.specs.Logs as L;
ghost use Rattle.definitions.specs.Held as H;
ghost use Rattle.definitions.specs.Honest.{made_count, chosen_track};
ghost use Rattle.definitions.specs.Moves as M;
ghost use Rattle.definitions.specs.Needs as N;
ghost use Rattle.move_rules.specs.Verdicts.{verdict};
ghost use Rattle.peer_core.specs.Choosing.{fault_of};
ghost use Rattle.peer_core.specs.Standing.{IsStanding};
ghost use Rattle.definitions.specs.Advance as A;
ghost use Rattle.std.specs.Option.{is_some};
ghost use Rattle.definitions.specs.Findings.{is_clean};
ghost use Rattle.definitions.specs.Answers.{got_answer, is_of_another};
ghost use Rattle.definition_laws.specs.First.{finding_of_log};
ghost use Rattle.definitions.specs.Settled.{settled};
ghost use Rattle.definitions.specs.Steps.{has_no_made};
ghost use Rattle.peer_core.specs.Scoring as S;
ghost use Rattle.peer_core.specs.Views as V;

use crate::answers::{caught_in, is_logged, progress_of};
use crate::choosing::{chooses, next_of};
use crate::cutting::{count_chosen, hear_all};
use crate::following::follow;
use crate::others::Others;
use crate::room::add;
use crate::settling::Settling;
use crate::views::{Choice, PlayerView};
use definitions::{
    Entry, Finding, GotAnswer, Move, MoveFault, Nonce, Opening, OwnFault, Place, PlayerId,
    Progress, Track, TurnFrame,
};
use grid_world::Session;
use move_rules::{Walker, start_track};
use playout::Score;
use std::alloc::{AllocError, Global};
use std::marker::Model;
use wait_rule::NeedList;

/// The log of one player of a session, with tables of what its entries say.
#[derive(Drop)]
pub struct Peer {
    session: Session,
    walker: Walker,
    me: PlayerId,
    entries: Vec<Entry>,
    // what was chosen, the frames that were made, and the tracks before each choice and after the last
    openings: Vec<Opening>,
    frames: Vec<TurnFrame>,
    tracks: Vec<Track>,
    // what the log shows of the other players, and its first finding
    others: Others,
    found: Option<Finding>,
    needs: NeedList,
    settling: Settling,
}

impl Model for Peer {
    ghost use Rattle.std.specs.Prelude.{vec_capacity};
    ghost use Rattle.peer_core.specs.Views.{PeerState};
    ghost use Rattle.peer_core.specs.Inside.{IsPeer, HasRoom};
    ghost use Rattle.peer_core.specs.Settling.{IsCounted};

    ghost Value = { PeerState };

    ghost view = { λ p. record { game = p.session; me = p.me; entries = p.entries.items } };

    ghost invariant = { λ p. IsPeer p.session p.me p.entries.items p.openings.items p.frames.items p.tracks.items p.others p.found p.needs
        × HasRoom p.session (vec_capacity p.entries) (vec_capacity p.openings) (vec_capacity p.frames) (vec_capacity p.tracks)
        × IsCounted p.session p.me p.entries.items p.settling };
}

impl Peer {
    /// A peer with an empty log, for this player of the session. It takes all the memory that the peer will need.
    pub fn new(alloc: Global, session: &Session, me: PlayerId) -> Result<Peer, AllocError>
        requires player { me < players_of session.now }
        ensures { IfOk result (λ p. p ≡ record { game = session.now; me = me; entries = [] }) }
    {
        let copy = session.copy(alloc)?;
        let walker = Walker::new(alloc, session.grid())?;
        let turns = session.turns() as usize;
        let others = usize::from(session.players()) - 1;
        let entries = Vec::with_capacity(alloc, 3 * turns + 2 * turns * others + 1)?;
        let openings = Vec::with_capacity(alloc, turns)?;
        let frames = Vec::with_capacity(alloc, 2 * turns)?;
        let mut tracks = Vec::with_capacity(alloc, turns + 1)?;
        tracks.push(start_track(session, me))?;
        let mut known = Others::new(alloc, session, me)?;
        let settling = Settling::new(alloc, session)?;
        let mut needs = NeedList::new();
        known.find_needs(
            session,
            me,
            entries.as_slice(),
            0,
            tracks.as_slice(),
            &mut needs,
        );
        Ok(Peer {
            session: copy,
            walker,
            me,
            entries,
            openings,
            frames,
            tracks,
            others: known,
            found: None,
            needs,
            settling,
        })
    }

    /// The peer's log is always honest: nothing but that fact, and what follows for its session and its numbers.
    pub fn facts(&self)
        ensures { IsStanding self.now }
    {
        self.session.facts();
    }

    /// The session that the peer was made for.
    pub fn session(&self) -> &Session
        ensures { result.now ≡ self.now.game }
    {
        &self.session
    }

    /// The player whose log this is.
    pub fn me(&self) -> PlayerId
        ensures { result ≡ self.now.me }
    {
        self.me
    }

    /// The log, in the order in which its entries came.
    pub fn entries(&self) -> &[Entry]
        ensures { result.now ≡ self.now.entries }
    {
        self.entries.as_slice()
    }

    /// The first finding of the log, if it has one.
    pub fn finding(&self) -> Option<Finding>
        ensures first { result ≡ finding_of_log self.now.game self.now.entries }
        ensures clean { is_some result ≡ not (is_clean self.now.game self.now.entries) }
    {
        let _ = &self.session;
        self.found
    }

    /// For whom the peer waits, by rising player.
    pub fn needs(&self) -> &NeedList
        ensures { result.now ≡ N.needs self.now.game self.now.me self.now.entries }
    {
        &self.needs
    }

    /// How many own turns are settled, from the first one on without a gap. An own turn is settled where its reveal is made,
    /// and the turn of each other player is resolved or that player can't meet the peer in it. What comes later changes nothing
    /// of it.
    pub fn settled(&self) -> u32
        ensures { result ≡ settled self.now.game self.now.me self.now.entries }
    {
        self.settling.turns()
    }

    /// The hits that the peer gave and took in its settled turns: whatever the moves are that its log doesn't show, these are
    /// its hits where all players play so many turns.
    pub fn score(&self) -> Score
        ensures exact { result ≡ S.settled_score self.now.game self.now.me self.now.entries }
        ensures of_all { S.IsScoreOfAll self.now.game self.now.me self.now.entries result }
    {
        self.session.facts();
        self.settling.score(self.me)
    }

    /// How many frames the peer made: the next one has this place in its stream.
    pub fn made_count(&self) -> Place
        ensures { result ≡ made_count self.now.entries }
    {
        self.frames.len() as u32
    }

    /// The own frame at this place, counted from 0. None comes exactly from `made_count` on.
    pub fn made(&self, place: Place) -> Option<TurnFrame>
        ensures { result ≡ slice_get (L.made self.now.entries) place }
    {
        self.frames.as_slice().get(place as usize).copied()
    }

    /// The own turn that is next to be revealed; the number of turns once all are.
    pub fn turn(&self) -> u32
        ensures { result ≡ H.resolved_count self.now.game self.now.me self.now.entries self.now.me }
    {
        self.session.reveals_below(self.frames.len() as u32)
    }

    /// The number of turns chosen, which is that of the turn to be chosen next, and the track after them.
    pub fn choice(&self) -> Choice
        ensures { result ≡ V.choice_of self.now.game self.now.me self.now.entries }
    {
        let turn = self.openings.len();
        Choice {
            turn: turn as u32,
            track: self.tracks[turn],
        }
    }

    /// Whether a move may be chosen now.
    pub fn may_choose(&self) -> bool
        ensures { result ≡ N.may_choose self.now.game self.now.me self.now.entries }
    {
        self.session.facts();
        let clean = self.found.is_none();
        let no_needs = self.needs.as_slice().is_empty();
        chooses(
            &self.session,
            clean,
            no_needs,
            self.frames.len() as u32,
            self.openings.len(),
        )
    }

    /// The frame that the peer makes next, where one is allowed.
    pub(crate) fn next_made(&self) -> Option<TurnFrame>
        ensures frame { result ≡ A.next_made self.now.game self.now.me self.now.entries }
        ensures facts { IsStanding self.now }
    {
        self.session.facts();
        let clean = self.found.is_none();
        let no_needs = self.needs.as_slice().is_empty();
        next_of(
            &self.session,
            clean,
            no_needs,
            self.openings.as_slice(),
            self.frames.len() as u32,
        )
    }

    /// Makes the next frame.
    pub(crate) fn make(&mut self, frame: TurnFrame)
        requires { A.next_made self.old.game self.old.me self.old.entries ≡ Some frame }
        ensures { self.new ≡ record self.old { entries = self.old.entries ++ Entry.Made frame ∷ [] } }
    {
        self.session.facts();
        add(&mut self.entries, Entry::Made(frame));
        add(&mut self.frames, frame);
        follow(
            &mut self.others,
            &mut self.settling,
            &self.session,
            self.me,
            self.entries.as_slice(),
            self.openings.as_slice(),
            self.frames.len() as u32,
            self.tracks.as_slice(),
            &mut self.needs,
        );
    }

    /// Makes every frame that is allowed, and says how many there were.
    fn make_all(&mut self) -> u8
        ensures log { self.new ≡ record self.old { entries = A.advance self.old.game self.old.me self.old.entries } }
        ensures count { result ≡ A.advances_by self.old.game self.old.me self.old.entries }
    {
        self.facts();
        let mut count = 0u8;
        while let Some(frame) = self.next_made() {
            self.make(frame);
            count += 1;
        }
        count
    }

    /// Makes every frame that the protocol allows by now, and says how far the peer came. Behind a finding nothing is made.
    pub fn advance(&mut self) -> Progress
        ensures progress { result ≡ A.progress self.old.game self.old.me self.old.entries }
        ensures log { self.new ≡ record self.old { entries = A.advance self.old.game self.old.me self.old.entries } }
    {
        self.facts();
        let chooses = self.may_choose();
        let no_needs = self.needs.as_slice().is_empty();
        let found = self.found;
        let count = self.make_all();
        progress_of(found, count, chooses, no_needs)
    }

    /// Goes back to the first entries of the log, behind which no own frame was made.
    pub(crate) fn keep_first(&mut self, keep: usize)
        requires few { keep ≤ length self.old.entries }
        requires unmade { IsTrue (has_no_made (drop keep self.old.entries)) }
        ensures { self.new ≡ record self.old { entries = take keep self.old.entries } }
    {
        self.session.facts();
        if keep == self.entries.len() {
            return;
        }
        let session = &self.session;
        self.others.clear(session, self.me, self.entries.as_slice());
        self.settling.restart(session);
        self.entries.truncate(keep);
        let entries = self.entries.as_slice();
        let chosen = count_chosen(entries, self.me);
        self.openings.truncate(chosen);
        self.tracks.truncate(chosen + 1);
        hear_all(
            &mut self.others,
            session,
            &mut self.walker,
            self.me,
            entries,
        );
        self.found = None;
        follow(
            &mut self.others,
            &mut self.settling,
            session,
            self.me,
            entries,
            self.openings.as_slice(),
            self.frames.len() as u32,
            self.tracks.as_slice(),
            &mut self.needs,
        );
    }

    /// Adds a choice that is allowed, after which the owner has this track.
    fn add_choice(&mut self, mv: Move, nonce: Nonce, track: Track)
        requires chooses { IsTrue (N.may_choose self.old.game self.old.me self.old.entries) }
        requires legal { M.move_fault self.old.game self.old.me (chosen_track self.old.game self.old.me self.old.entries) mv ≡ None }
        requires track { track ≡ M.next_track self.old.game (chosen_track self.old.game self.old.me self.old.entries) mv }
        ensures { self.new ≡ record self.old { entries = self.old.entries ++ Entry.Chose (length (L.chosen self.old.me self.old.entries)) mv nonce ∷ [] } }
    {
        self.session.facts();
        let turn = self.openings.len() as u32;
        let opening = Opening {
            player: self.me,
            turn,
            mv,
            nonce,
        };
        add(&mut self.entries, Entry::Chose { turn, mv, nonce });
        add(&mut self.openings, opening);
        add(&mut self.tracks, track);
        follow(
            &mut self.others,
            &mut self.settling,
            &self.session,
            self.me,
            self.entries.as_slice(),
            self.openings.as_slice(),
            self.frames.len() as u32,
            self.tracks.as_slice(),
            &mut self.needs,
        );
    }

    /// Chooses the move of the next turn, with the nonce that its commitment is made of. It is refused where no move may
    /// be chosen, and otherwise where the move isn't legal from the track of `choice`; then nothing changes.
    pub fn choose(&mut self, mv: Move, nonce: Nonce) -> Result<(), OwnFault>
        ensures fault { fault_of result ≡ N.choice_fault self.old.game self.old.me self.old.entries mv }
        ensures chosen { OnOk result (self.new ≡ record self.old { entries = self.old.entries ++ Entry.Chose (length (L.chosen self.old.me self.old.entries)) mv nonce ∷ [] }) }
        ensures refused { OnErr result (self.new ≡ self.old) }
    {
        if !self.may_choose() {
            return Err(OwnFault::NotNow);
        }
        let choice = self.choice();
        match self.judge(&choice.track, &mv) {
            Err(fault) => Err(OwnFault::Illegal(fault)),
            Ok(track) => {
                self.add_choice(mv, nonce, track);
                Ok(())
            }
        }
    }

    /// The own track after the move, or why the move isn't legal.
    fn judge(&mut self, track: &Track, mv: &Move) -> Result<Track, MoveFault>
        requires { track.now ≡ chosen_track self.old.game self.old.me self.old.entries }
        ensures verdict { result ≡ verdict self.old.game self.old.me track.now mv.now }
        ensures same { self.new ≡ self.old }
    {
        self.session.facts();
        self.walker.legal(&self.session, self.me, track, mv)
    }

    /// Offers a frame of another player to its window, and takes it into the log where the window holds it.
    fn hear(&mut self, from: PlayerId, frame: &TurnFrame) -> GotAnswer
        requires clean { IsTrue (is_clean self.old.game self.old.entries) }
        requires from { IsTrue (is_of_another self.old.game self.old.me from frame.now) }
        ensures answer { result ≡ got_answer self.old.game self.old.me self.old.entries from frame.now }
        ensures log { self.new ≡ record self.old { entries = V.with_got self.old.game self.old.me self.old.entries from frame.now } }
    {
        self.session.facts();
        let answer = self.others.offer(
            &self.session,
            &mut self.walker,
            self.me,
            self.entries.as_slice(),
            from,
            frame,
        );
        if is_logged(&answer) {
            add(&mut self.entries, Entry::Got(from, *frame));
            self.found = caught_in(&answer);
            follow(
                &mut self.others,
                &mut self.settling,
                &self.session,
                self.me,
                self.entries.as_slice(),
                self.openings.as_slice(),
                self.frames.len() as u32,
                self.tracks.as_slice(),
                &mut self.needs,
            );
        }
        answer
    }

    /// Takes a frame that came from a player. It is refused where the log has a finding already, where it is no frame of the
    /// other player from whom it came, where its place is past the window of that player's next one or past the last turn,
    /// and where the log has it already; then nothing changes.
    pub fn got(&mut self, from: PlayerId, frame: &TurnFrame) -> GotAnswer
        ensures answer { result ≡ got_answer self.old.game self.old.me self.old.entries from frame.now }
        ensures log { self.new ≡ record self.old { entries = V.with_got self.old.game self.old.me self.old.entries from frame.now } }
    {
        if self.found.is_some() {
            return GotAnswer::Closed;
        }
        if !self.session.is_of_another(self.me, from, frame) {
            return GotAnswer::Foreign;
        }
        self.hear(from, frame)
    }

    /// What the log shows of a player: how many of its turns are resolved, its track after them, and its next place. For
    /// the peer itself these are its revealed turns, its track after them, and the number of frames that it made.
    pub fn player(&self, player: PlayerId) -> PlayerView
        requires { player < players_of self.now.game }
        ensures { result ≡ V.player_view self.now.game self.now.me self.now.entries player }
    {
        self.session.facts();
        if player == self.me {
            let made = self.frames.len() as u32;
            let turns = self.session.reveals_below(made);
            return PlayerView {
                turns,
                track: self.tracks[turns as usize],
                next: made,
            };
        }
        self.others
            .player(&self.session, self.me, self.entries.as_slice(), player)
    }
}
