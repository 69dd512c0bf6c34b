//! A peer that goes on from the entries of a log.

ghost use Rattle.std.specs.Prelude.{◌≡◌, ◌<◌, OnOk, IfErr};
ghost use Rattle.definitions.specs.World.{players_of};
ghost use Rattle.definitions.specs.Honest.{IsHonest, allowed};
ghost use Rattle.peer_core.specs.Resuming as R;

use crate::answers::is_logged;
use crate::frames::is_frame;
use crate::peer::Peer;
use definitions::{Entry, Move, Nonce, PlayerId, Turn, TurnFrame};
use grid_world::Session;
use std::alloc::Global;

/// Why a peer can't go on from a log's entries.
#[derive(Clone, Copy, Debug, PartialEq, Eq)]
pub enum ResumeFault {
    /// The entry with this number, counted from 0, is the first that may not follow those before it.
    NotReplayed(u32),
    /// There was no memory for the peer.
    Memory,
}

impl Peer {
    /// A peer whose log is these entries, for this player of the session. It takes all the memory that the peer will need,
    /// as `new` does, and replays the entries one by one: nothing is chosen, drawn or made anew. NotReplayed comes exactly
    /// where the entries aren't an honest log of the player: its entry is a choice that may not come next or whose move
    /// isn't legal, a made frame that isn't the next one or isn't allowed, a frame that `got` would not take into the log,
    /// or any entry after a finding.
    pub fn resume(
        alloc: Global,
        session: &Session,
        me: PlayerId,
        entries: &[Entry],
    ) -> Result<Peer, ResumeFault>
        requires player { me < players_of session.now }
        ensures exact { R.Resumes session.now me entries.now result }
        ensures honest { OnOk result (IsHonest session.now me entries.now) }
        ensures first { IfErr result (λ fault. R.NamesTheFirst session.now me entries.now fault) }
    {
        session.facts();
        let mut peer = match Peer::new(alloc, session, me) {
            Ok(peer) => peer,
            Err(_) => return Err(ResumeFault::Memory),
        };
        for (i, entry) in entries.iter().enumerate() {
            if !peer.replay(entry) {
                return Err(ResumeFault::NotReplayed(i as u32));
            }
        }
        Ok(peer)
    }

    /// Takes the entry into the log as it stands, where it may come next, and says whether it may. Otherwise nothing changes.
    fn replay(&mut self, entry: &Entry) -> bool
        ensures allowed { result ≡ allowed self.old.game self.old.me self.old.entries entry.now }
        ensures log { self.new ≡ record self.old { entries = R.with_allowed self.old.game self.old.me self.old.entries entry.now } }
    {
        match *entry {
            Entry::Chose { turn, mv, nonce } => self.replay_choice(turn, mv, nonce),
            Entry::Made(frame) => self.replay_frame(&frame),
            Entry::Got(from, frame) => self.replay_got(from, &frame),
        }
    }

    /// Takes a choice into the log, with its nonce, where it is of the next turn and may come next.
    fn replay_choice(&mut self, turn: Turn, mv: Move, nonce: Nonce) -> bool
        ensures allowed { result ≡ allowed self.old.game self.old.me self.old.entries (Entry.Chose turn mv nonce) }
        ensures log { self.new ≡ record self.old { entries = R.with_allowed self.old.game self.old.me self.old.entries (Entry.Chose turn mv nonce) } }
    {
        self.facts();
        if turn != self.choice().turn {
            return false;
        }
        match self.choose(mv, nonce) {
            Ok(()) => true,
            Err(_) => false,
        }
    }

    /// Takes an own frame into the log, where it is the one that is made next.
    fn replay_frame(&mut self, frame: &TurnFrame) -> bool
        ensures allowed { result ≡ allowed self.old.game self.old.me self.old.entries (Entry.Made frame.now) }
        ensures log { self.new ≡ record self.old { entries = R.with_allowed self.old.game self.old.me self.old.entries (Entry.Made frame.now) } }
    {
        let Some(next) = self.next_made() else {
            return false;
        };
        if !is_frame(&next, frame) {
            return false;
        }
        self.make(next);
        true
    }

    /// Takes a frame of another player into the log, where `got` does.
    fn replay_got(&mut self, from: PlayerId, frame: &TurnFrame) -> bool
        ensures allowed { result ≡ allowed self.old.game self.old.me self.old.entries (Entry.Got from frame.now) }
        ensures log { self.new ≡ record self.old { entries = R.with_allowed self.old.game self.old.me self.old.entries (Entry.Got from frame.now) } }
    {
        let answer = self.got(from, frame);
        is_logged(&answer)
    }
}
