//! A peer that is driven by a script, and what becomes of the script's lines.

ghost use Rattle.std.specs.Prelude.{◌≡◌, ◌<◌, ◌≤◌, ◌+◌, ◌*◌, ◌∷◌, List, ℕ, false, length, drop, IsTrue};
ghost use Rattle.definitions.specs.Logs.{chosen};
ghost use Rattle.definitions.specs.Advance.{advance};
ghost use Rattle.definitions.specs.Needs.{choice_fault};
ghost use Rattle.definitions.specs.Findings.{is_clean};
ghost use Rattle.definitions.specs.Answers.{got_answer, place_of};
ghost use Rattle.definitions.specs.Steps.{after_choice, after_got};
ghost use Rattle.drive_command.specs.Grammar.{IsFew, is_bad};
ghost use Rattle.drive_command.specs.Driven.{fresh_state, last_reader, reader_of, state_with_log};
ghost use Rattle.drive_command.specs.Coming.{coming_text, log_behind_frame};
ghost use Rattle.drive_command.specs.Drive.{said_behind};
ghost use Rattle.drive_command.specs.Outcomes.{driven_from, bytes_from, rest_from, part_text, is_last, AnswersBy, Counts, HasBefore, MayCome, Unless};
ghost use Rattle.run_frame.specs.Frame.{after_text};
ghost use Rattle.line_io.specs.Inputs.{Input, Line};

use crate::outcomes::{Answered, Arrival, Outcome, Part, Reply};
use crate::readers::{READERS, Readers, last_reader};
use crate::{DriveLine, read_line};
use definitions::limits::{LONGEST_LINE, LONGEST_PIECE, MOST_LINES};
use definitions::{GotAnswer, Move, Nonce, OwnFault, PlayerId, TurnFrame};
use peer_core::Peer;
use std::marker::Model;
use wire_frames::{FedWhat, Frame};

/// Lets the peer's player choose, and then makes what the peer may make by itself. A choice that is refused changes nothing.
fn choose(peer: &mut Peer, mv: Move, nonce: Nonce) -> Option<OwnFault>
    ensures fault { result ≡ choice_fault peer.old.game peer.old.me peer.old.entries mv }
    ensures after { peer.new ≡ record peer.old { entries = after_choice peer.old.game peer.old.me peer.old.entries mv nonce } }
{
    match peer.choose_and_advance(mv, nonce) {
        Err(fault) => Some(fault),
        Ok(()) => None,
    }
}

/// A peer, readers of the bytes that come from the players, and the number of the script's lines so far, at most `MOST_LINES`.
#[derive(Drop)]
pub(crate) struct Driver {
    peer: Peer,
    readers: Readers,
    lines: u32,
}

impl Model for Driver {
    ghost use Rattle.std.specs.Prelude.{◌≤◌, ◌*◌, ℕ, get_or};
    ghost use Rattle.wire_frames.specs.Reading.{at_start};
    ghost use Rattle.drive_command.specs.Driven.{Driven};
    ghost use Rattle.definitions.specs.declared.limits.TheConstants.{MOST_LINES};
    ghost use Rattle.definitions.specs.declared.limits.TheConstants.{LONGEST_PIECE};

    ghost Value = { Driven };

    ghost view = { λ d. record { game = d.peer.game; me = d.peer.me; state = record { log = d.peer.entries; readers = d.readers }; lines = d.lines } };

    ghost invariant = { λ d. (d.lines ≤ MOST_LINES) × ((q : ℕ) → (get_or d.readers q at_start).place ≤ LONGEST_PIECE * d.lines) };
}

impl Driver {
    /// A driver of this peer, which makes first what it may make by itself.
    pub(crate) fn new(mut peer: Peer) -> Driver
        ensures { result ≡ record { game = peer.game; me = peer.me; state = fresh_state (advance peer.game peer.me peer.entries); lines = 0 } }
    {
        peer.advance();
        Driver {
            peer,
            readers: Readers::new(),
            lines: 0,
        }
    }

    /// The peer.
    pub(crate) fn peer(&self) -> &Peer
        ensures { result.now ≡ record { game = self.now.game; me = self.now.me; entries = self.now.state.log } }
    {
        &self.peer
    }

    /// The number of the next line, counted from 1.
    pub(crate) fn next_line(&self) -> u32
        ensures { result ≡ self.now.lines + 1 }
    {
        self.lines + 1
    }

    /// What the line says that comes next.
    #[tactic(auto, unfolding(crate::specs::Drive::said_behind))]
    fn said(&self, line: &[u8]) -> DriveLine
        requires { length line.now ≤ LONGEST_LINE }
        ensures value { result ≡ said_behind self.now.game self.now.lines line.now }
        ensures known { IsFew (last_reader self.now.game) result }
        ensures readers { last_reader self.now.game < READERS }
        ensures few { Unless (is_bad result) (self.now.lines < MOST_LINES) }
    {
        let last = last_reader(self.peer.session());
        if self.lines >= MOST_LINES {
            return DriveLine::Bad;
        }
        read_line(last, line)
    }

    /// Counts a line, which may bring `LONGEST_PIECE` bytes from any player.
    fn count(&mut self)
        requires { self.old.lines < MOST_LINES }
        ensures after { self.new ≡ record self.old { lines = self.old.lines + 1 } }
        ensures few { (q : ℕ) → (reader_of self.new.state q).place + LONGEST_PIECE ≤ LONGEST_PIECE * self.new.lines }
    {
        self.lines += 1;
    }

    /// Lets the player choose.
    fn choose(&mut self, mv: Move, nonce: Nonce) -> Answered
        ensures answer { result ≡ Answered.Choice (length (chosen self.old.me self.old.state.log)) (choice_fault self.old.game self.old.me self.old.state.log mv) (length self.old.state.log) }
        ensures after { self.new ≡ record self.old { state = state_with_log self.old.state (after_choice self.old.game self.old.me self.old.state.log mv nonce) } }
    {
        let turn = self.peer.choice().turn;
        let entries = self.peer.entries().len();
        let fault = choose(&mut self.peer, mv, nonce);
        Answered::Choice {
            turn,
            fault,
            entries,
        }
    }

    /// Hands a frame to the peer.
    fn receive(&mut self, from: PlayerId, frame: &TurnFrame) -> Reply
        ensures place { result.place ≡ place_of self.old.game frame.now }
        ensures answer { result.answer ≡ got_answer self.old.game self.old.me self.old.state.log from frame.now }
        ensures entries { result.entries ≡ length self.old.state.log }
        ensures after { self.new ≡ record self.old { state = state_with_log self.old.state (after_got self.old.game self.old.me self.old.state.log from frame.now) } }
    {
        let place = self.peer.session().place_of(frame);
        let entries = self.peer.entries().len();
        let answer = self.peer.got_and_advance(from, frame);
        Reply {
            place,
            answer,
            entries,
        }
    }

    /// Takes a frame that came whole, and hands it to the peer if it is one of a turn.
    fn take(&mut self, from: PlayerId, frame: &Frame) -> Arrival
        ensures text { part_text result from self.new.state.log ≡ coming_text self.old.game self.old.me self.old.state.log from frame.now }
        ensures after { self.new ≡ record self.old { state = state_with_log self.old.state (log_behind_frame self.old.game self.old.me self.old.state.log from frame.now) } }
        ensures before { HasBefore result self.new.state.log }
        ensures further { is_last result ≡ false }
    {
        match frame {
            Frame::Hello { .. } => Arrival::Hello,
            Frame::Want { place } => Arrival::Want(*place),
            Frame::Turn(frame) => Arrival::Received(self.receive(from, frame)),
        }
    }

    /// Takes the next line, which has at most `LONGEST_LINE` bytes. No line comes after a finding. Bytes that the line brings are still
    /// to be read.
    pub(crate) fn take_line(&mut self, line: &[u8]) -> Outcome
        requires short { length line.now ≤ LONGEST_LINE }
        requires clean { IsTrue (is_clean self.old.game self.old.state.log) }
        ensures answers { (input : Input) → AnswersBy result (driven_from self.old (Line line.now input)) (self.old.lines + 1) self.new input }
        ensures counts { Counts result self.old.lines self.new }
    {
        let said = self.said(line);
        if let DriveLine::Bad = said {
            return Outcome::Bad;
        }
        self.count();
        match said {
            DriveLine::Bad => Outcome::Bad,
            DriveLine::Nothing => Outcome::AtOnce(Answered::Nothing),
            DriveLine::Choose(mv, nonce) => Outcome::AtOnce(self.choose(mv, nonce)),
            DriveLine::Got(from, frame) => {
                Outcome::AtOnce(Answered::Received(from, self.receive(from, &frame)))
            }
            DriveLine::Bytes(from, piece) => Outcome::Bytes(from, piece),
            DriveLine::Log => Outcome::AtOnce(Answered::Log),
            DriveLine::Score => Outcome::AtOnce(Answered::Score),
        }
    }

    /// Reads on in the bytes that come from a player, up to the end of the first frame that ends in these, and hands it to the
    /// peer if it is one of a turn.
    pub(crate) fn take_part(&mut self, from: PlayerId, bytes: &[u8]) -> Part
        requires { MayCome self.old from bytes.now }
        ensures answers { (input : Input) → bytes_from self.old from bytes.now input ≡
            after_text (part_text result.arrival from self.new.state.log) (rest_from (is_last result.arrival) self.new from (drop result.used bytes.now) input) }
        ensures before { HasBefore result.arrival self.new.state.log }
        ensures some { is_last result.arrival ≡ false → 0 < result.used }
        ensures within { result.used ≤ length bytes.now }
        ensures lines { self.new.lines ≡ self.old.lines }
        ensures may { IsTrue (is_clean self.new.game self.new.state.log) → MayCome self.new from (drop result.used bytes.now) }
    {
        let fed = self.readers.feed(from, bytes);
        let arrival = match fed.what {
            FedWhat::More => Arrival::More,
            FedWhat::Bad(place) => Arrival::Bad(place),
            FedWhat::Whole(frame) => self.take(from, &frame),
        };
        Part {
            used: fed.used,
            arrival,
        }
    }
}
