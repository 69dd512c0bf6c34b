//! A peer with its links and the places up to which its log and its frames were handed out.

ghost use Rattle.std.specs.Prelude.{◌≡◌, ◌≢◌, ◌+◌, ◌≤◌, ◌<◌, [], true, false, length, take, pos, replicate};
ghost use Rattle.wire_frames.specs.Reading.{at_start};
ghost use Rattle.lethwyrn_c.specs.declared.link.TheConstants.{LINKS};
ghost use Rattle.lethwyrn_c.specs.Calls as C;
ghost use Rattle.lethwyrn_c.specs.Heard as H;
ghost use Rattle.lethwyrn_c.specs.Marks.{IsMarkOf};
ghost use Rattle.lethwyrn_c.specs.Sending as S;

use crate::codes;
use crate::link::{Links, MOST_AT_ONCE, MOST_IN_ALL};
use crate::mark::Mark;
use crate::views::GreetView;
use commitment::put_turn;
use definitions::{Move, Nonce, PlayerId, Progress};
use grid_world::Session;
use peer_core::Peer;
use std::marker::Model;
use wire_frames::{FedWhat, Frame, put_frame};

/// A peer, a link for each player that there can be, how far its log was handed out, how many of these entries are stored and how far the
/// next one goes, and the place of the own frame that is handed out next.
#[derive(Drop)]
pub(crate) struct Seat {
    peer: Peer,
    links: Links,
    given: Mark,
    // behind the entries that are stored, or behind the next one
    ahead: Mark,
    stored: usize,
    sent: u32,
}

impl Model for Seat {
    ghost use Rattle.lethwyrn_c.specs.Standings.{Standing};
    ghost use Rattle.lethwyrn_c.specs.Marks.{AreMarks};

    ghost Value = { Standing };

    ghost view = { λ s. record { peer = s.peer; links = s.links; given = s.given.entries; stored = s.stored; sent = s.sent } };

    ghost invariant = { λ s. AreMarks s.peer s.given s.ahead s.stored };
}

/// What C is told of a hello or a want.
fn tell_greeting(session: &Session, what: &FedWhat, greet: &mut GreetView)
    ensures { greet.new ≡ H.greeting session.now what.now greet.old }
{
    match what {
        FedWhat::Whole(Frame::Want { place }) => {
            greet.next = *place;
        }
        FedWhat::Whole(
            Frame::Hello {
                id,
                player,
                pass,
                next,
            },
        ) => {
            *greet = GreetView {
                next: *next,
                player: *player,
                same_session: *id == *session.id(),
                pass: *pass,
            };
        }
        FedWhat::Whole(Frame::Turn(_)) | FedWhat::More | FedWhat::Bad(_) => {}
    }
}

impl Seat {
    /// A seat of a peer, whose log's entries count as handed out and stored. The mark is that of
    /// its whole log.
    pub(crate) fn new(peer: Peer, given: Mark) -> Seat
        requires all { given.entries ≡ length peer.entries }
        requires stands { IsMarkOf peer given }
        ensures { result ≡ record { peer = peer; links = replicate LINKS at_start; given = length peer.entries; stored = length peer.entries; sent = 0 } }
    {
        let ahead = given.copy();
        let stored = given.entries;
        Seat {
            peer,
            links: Links::new(),
            given,
            ahead,
            stored,
            sent: 0,
        }
    }

    /// The peer.
    pub(crate) fn peer(&self) -> &Peer
        ensures { result.now ≡ self.now.peer }
    {
        &self.peer
    }

    /// Chooses the move of the next turn.
    #[tactic(auto, using(crate::proofs::Marks::marks_stay))]
    pub(crate) fn choose(&mut self, mv: Move, nonce: Nonce) -> i32
        ensures code { result ≡ pos (C.choice_code mv self.old) }
        ensures state { self.new ≡ C.after_choice mv nonce.bytes self.old }
    {
        match self.peer.choose(mv, nonce) {
            Ok(()) => codes::OK,
            Err(fault) => codes::of_fault(&fault),
        }
    }

    /// Makes every frame that is allowed by now, and says how far the peer came and how many frames these were.
    pub(crate) fn advance(&mut self, made: &mut u8) -> i32
        ensures code { result ≡ pos (C.progress_code self.old) }
        ensures state { self.new ≡ C.after_advance self.old }
        ensures made { made.new ≡ C.made_of self.old }
    {
        let progress = self.peer.advance();
        *made = match progress {
            Progress::Made(count) => count,
            _ => 0,
        };
        codes::of_progress(&progress)
    }

    /// The link of a player begins anew.
    pub(crate) fn relink(&mut self, player: PlayerId) -> i32
        ensures code { result ≡ pos (H.link_code player self.old) }
        ensures state { self.new ≡ H.link_behind player self.old }
    {
        self.peer.session().facts();
        if player >= self.peer.session().players() {
            return codes::BAD_PLAYER;
        }
        self.links.begin(player);
        codes::OK
    }

    /// Hands the peer what was found in the bytes of a player's link, and says what became of it.
    fn take(&mut self, from: PlayerId, what: &FedWhat) -> i32
        ensures code { result ≡ pos (H.code_of_heard from self.old.peer what.now) }
        ensures state { self.new ≡ record self.old { peer = record self.old.peer { entries = H.heard from self.old.peer what.now } } }
    {
        match what {
            FedWhat::More => codes::MORE,
            FedWhat::Bad(_) => codes::BAD_BYTE,
            FedWhat::Whole(Frame::Hello { .. }) => codes::HELLO,
            FedWhat::Whole(Frame::Want { .. }) => codes::WANT,
            FedWhat::Whole(Frame::Turn(frame)) => codes::of_answer(&self.peer.got(from, frame)),
        }
    }

    /// Reads on in the bytes of a player's link, up to the end of the first frame in them: hands the peer the frame of a turn, tells of a hello or
    /// a want, and says how many bytes were used.
    pub(crate) fn hear(
        &mut self,
        from: PlayerId,
        bytes: &[u8],
        used: &mut usize,
        greet: &mut GreetView,
    ) -> i32
        ensures code { result ≡ pos (H.hear_code from bytes.now self.old) }
        ensures used { used.new ≡ H.hear_used from bytes.now self.old }
        ensures greet { greet.new ≡ H.hear_greeting from bytes.now self.old greet.old }
        ensures state { self.new ≡ H.hear_behind from bytes.now self.old }
    {
        *used = 0;
        self.peer.session().facts();
        if from >= self.peer.session().players() {
            return codes::BAD_PLAYER;
        }
        if bytes.len() > MOST_AT_ONCE || self.links.used(from) >= MOST_IN_ALL {
            return codes::TOO_MANY;
        }
        let fed = self.links.feed(from, bytes);
        *used = fed.used;
        tell_greeting(self.peer.session(), &fed.what, greet);
        self.take(from, &fed.what)
    }

    /// Writes the hello for a player.
    pub(crate) fn greet(
        &self,
        player: PlayerId,
        pass: &[u8; 16],
        out: &mut [u8; 64],
        count: &mut usize,
    ) -> i32
        ensures code { result ≡ pos (C.known_code player self.now) }
        ensures hello { result ≡ pos 0 → take count.new out.new ≡ C.hello player pass.now self.now }
        ensures none { result ≢ pos 0 → (count.new ≡ 0) × (out.new ≡ out.old) }
    {
        *count = 0;
        if player >= self.peer.session().players() {
            return codes::BAD_PLAYER;
        }
        let hello = Frame::Hello {
            id: *self.peer.session().id(),
            player: self.peer.me(),
            pass: *pass,
            next: self.peer.player(player).next,
        };
        *count = put_frame(&hello, out);
        codes::OK
    }

    /// Writes the next entry of the log that wasn't handed out.
    pub(crate) fn take_log(&mut self, out: &mut [u8; 96], count: &mut usize) -> i32
        ensures code { result ≡ pos (S.entry_code self.old) }
        ensures taken { result ≡ pos 0 → S.IsEntryTaken (take count.new out.new) self.old self.new }
        ensures none { result ≢ pos 0 → (self.new ≡ self.old) × (count.new ≡ 0) × (out.new ≡ out.old) }
    {
        *count = 0;
        if self.given.entries >= self.peer.entries().len() {
            return codes::NOTHING;
        }
        *count = self.given.step(self.peer.entries(), out);
        codes::OK
    }

    /// Counts the next entry as stored, where it was handed out and ends within so many bytes of the log, and says whether it did.
    fn store_one(&mut self, bytes: u64) -> bool
        ensures one { result ≡ true → S.IsOneStored bytes self.old self.new }
        ensures none { result ≡ false → (self.new ≡ self.old) × S.IsStoredTo bytes self.old self.old }
    {
        if self.stored >= self.given.entries {
            return false;
        }
        self.ahead.pass(self.peer.entries(), self.stored);
        if self.ahead.bytes > u128::from(bytes) {
            return false;
        }
        self.stored += 1;
        true
    }

    /// Counts the entries as stored that were handed out and end within so many bytes of the log. Those that are stored stay so.
    #[tactic(auto, using(crate::proofs::Storing::none_yet, crate::proofs::Storing::one_more, crate::proofs::Storing::no_more))]
    pub(crate) fn store(&mut self, bytes: u64)
        ensures { S.IsStoredTo bytes self.old self.new }
    {
        while self.store_one(bytes) {}
    }

    /// Writes the own frame that is due, where its entry is stored.
    pub(crate) fn take_frame(&mut self, out: &mut [u8; 64], count: &mut usize) -> i32
        ensures code { result ≡ pos (S.frame_code self.old) }
        ensures taken { result ≡ pos 0 → S.IsFrameTaken (take count.new out.new) self.old self.new }
        ensures none { result ≢ pos 0 → (self.new ≡ self.old) × (count.new ≡ 0) × (out.new ≡ out.old) }
    {
        *count = 0;
        let Some(frame) = self.peer.made(self.sent) else {
            return codes::NOTHING;
        };
        if self.sent >= self.peer.sendable(self.stored) {
            return codes::STORE_FIRST;
        }
        *count = put_turn(&frame, out);
        self.sent += 1;
        codes::OK
    }

    /// From now on own frames are handed out from this place on.
    pub(crate) fn send_from(&mut self, place: u32)
        ensures { self.new ≡ C.sending_from place self.old }
    {
        self.sent = place;
    }
}
