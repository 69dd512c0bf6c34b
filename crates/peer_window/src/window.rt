//! One other player's frames.

ghost use Rattle.std.specs.Prelude.{◌≡◌, ◌⊎◌, ◌+◌, ◌<◌, ◌≤◌, ◌==◌, ◌||◌, [], None, Some, false, length, slice_get, slice_set, nat_lt, nat_le, replicate, IfOk, IsTrue};
ghost use Rattle.std.specs.Option.{option_or};
ghost use Rattle.definitions.specs.World.{players_of};
ghost use Rattle.definitions.specs.Lists.{EachIs};
ghost use Rattle.definitions.specs.Logs.{frame_eq, player_of};
ghost use Rattle.definitions.specs.Held.{places_in};
ghost use Rattle.definitions.specs.Answers.{place_of};
ghost use Rattle.peer_window.specs.Slots.{AreSlots, in_order, slot, slot_of};
ghost use Rattle.peer_window.specs.Clashes.{first_clash};
ghost use Rattle.peer_window.specs.Windows.{IsWindow, IsHeld, answer, frames_after, new_answer};
ghost use Rattle.peer_window.specs.Windows as W;

use crate::clashes::{lower_clash, opening_clash, rival_clash};
use crate::received::{Offer, Received};
use crate::slots::{commitment_slot, other_slot, reveal_slot, slot, slot_of};
use crate::walk::{illegal_reveal, walk};
use definitions::{Digest, Finding, FramePlace, Move, Place, PlayerId, Track, Turn, TurnFrame};
use grid_world::{Session, Stream};
use move_rules::{Walker, start_track};
use std::alloc::{AllocError, Global};
use std::marker::Model;

/// The frames of one other player of a session that came, and what they show.
#[derive(Drop)]
pub struct Window {
    player: PlayerId,
    // two for each turn
    slots: Vec<Option<Received>>,
    // the last frame, where its slot holds a different one
    rival: Option<Received>,
    // a frame came that makes a clash
    closed: bool,
    // how much of the stream is there
    stream: Stream,
}

impl Model for Window {
    ghost use Rattle.peer_window.specs.Windows.{Seen, AreParts, seen_of};

    ghost Value = { Seen };

    ghost view = { λ w. seen_of w.player w.slots.items w.rival w.closed w.stream };

    ghost invariant = { λ w. AreParts w.player w.slots.items w.rival w.closed w.stream };
}

/// How far the frames that are held lead, and what became of the last.
#[derive(Clone, Copy)]
pub(crate) struct Held {
    pub stream: Stream,
    pub offer: Offer,
}

/// So many empty slots.
fn empty_slots(alloc: Global, count: usize) -> Result<Vec<Option<Received>>, AllocError>
    ensures { IfOk result (λ v. v.items ≡ replicate count None) }
{
    vec![in alloc; None; count]
}

/// Empties the slots.
fn empty(slots: &mut [Option<Received>])
    ensures { slots.new ≡ replicate (length slots.old) None }
{
    for one in slots.iter_mut() {
        *one = None;
    }
}

/// The answer to a new frame, by the first clash that it makes, if it makes one.
fn answer_of(clash: Option<Finding>, was_next: bool) -> Offer
    ensures { result ≡ new_answer clash was_next }
{
    match clash {
        Some(clash) => Offer::Conflict(clash),
        None => {
            if was_next {
                Offer::Taken
            } else {
                Offer::Stashed
            }
        }
    }
}

/// Whether what is held is this very frame.
fn is_frame(held: &Received, frame: &TurnFrame) -> bool
    ensures { result ≡ frame_eq held.now.frame frame.now }
{
    held.frame == *frame
}

/// Whether the answer is that of a frame that makes a clash.
fn is_conflict(offer: &Offer) -> bool
    ensures { result ≡ W.is_conflict offer.now }
{
    match *offer {
        Offer::Taken => false,
        Offer::Stashed => false,
        Offer::Same => false,
        Offer::Far => false,
        Offer::Conflict(_) => true,
    }
}

/// Puts a frame into its empty slot, and goes on from the next one as far as the frames lead.
///
/// One reveal is hashed at most, and only where both frames of the turn are there. What was held
/// makes no clash, so each reveal opens the commitment of its turn where both were held. Whether
/// the new frame agrees with the other one of its turn is found out first: that tells the walk all
/// that hashing could.
fn hold(
    session: &Session,
    walker: &mut Walker,
    player: PlayerId,
    slots: &mut [Option<Received>],
    from: &Stream,
    received: &Received,
) -> Held
    requires held { IsHeld session.now player slots.old from.now }
    requires own { player_of received.now.frame ≡ player }
    requires place { slot_of received.now.frame < length slots.old }
    requires empty { slot slots.old (slot_of received.now.frame) ≡ None }
    requires later { EachIs (λ r. r.entry < received.now.entry) (in_order slots.old) }
    requires clean { first_clash session.now player (in_order slots.old) ≡ None }
    ensures slots { slots.new ≡ slice_set slots.old (slot_of received.now.frame) (Some received.now) }
    ensures held { IsHeld session.now player slots.new result.stream }
    ensures offer { result.offer ≡ new_answer (first_clash session.now player (in_order slots.new)) (place_of session.now received.now.frame == from.now.commits + from.now.resolved) }
{
    session.facts();
    let next = FramePlace::from(from.next());
    let was_next = session.place_of(&received.frame) == next;
    let other = slot(slots, other_slot(&received.frame));
    let at = slot_of(&received.frame);
    let bad = opening_clash(session, player, &other, received);
    slots[at as usize] = Some(*received);
    let stream = walk(session, walker, player, slots, &bad, from);
    let illegal = illegal_reveal(session, walker, player, slots, &bad, &stream);
    let clash = lower_clash(bad, illegal);
    Held {
        stream,
        offer: answer_of(clash, was_next),
    }
}

impl Window {
    /// The window of a player of a session, of whom no frame came.
    ///
    /// Room for all frames of the player, two for each turn, is taken here, and no other call takes any. AllocError comes where
    /// that memory is refused.
    pub fn new(alloc: Global, session: &Session, player: PlayerId) -> Result<Window, AllocError>
        requires { player < players_of session.now }
        ensures window { IfOk result (λ w. IsWindow session.now w) }
        ensures player { IfOk result (λ w. w.player ≡ player) }
        ensures empty { IfOk result (λ w. w.frames ≡ []) }
        ensures open_still { IfOk result (λ w. w.closed ≡ false) }
    {
        session.facts();
        let slots = empty_slots(alloc, 2 * session.turns() as usize)?;
        Ok(Window {
            player,
            slots,
            rival: None,
            closed: false,
            stream: Stream {
                commits: 0,
                resolved: 0,
                track: start_track(session, player),
            },
        })
    }

    /// Forgets all frames, in the room that they had: the window is as `new` gives it.
    pub fn clear(&mut self, session: &Session)
        requires window { IsWindow session.now self.old }
        ensures window { IsWindow session.now self.new }
        ensures player { self.new.player ≡ self.old.player }
        ensures empty { self.new.frames ≡ [] }
        ensures open_still { self.new.closed ≡ false }
    {
        session.facts();
        empty(&mut self.slots);
        self.rival = None;
        self.closed = false;
        self.stream = Stream {
            commits: 0,
            resolved: 0,
            track: start_track(session, self.player),
        };
    }

    /// Offers a frame of the player, whose log entry would have this number.
    ///
    /// The answers are tried in this order. Far: its place is more than eight past the next one, or past the last turn. Same:
    /// an equal frame came before. Neither changes anything. Conflict: the frames that came show with this one that the
    /// player broke the protocol; the first of what they show is named, by turn, kind and entries. A move is judged as soon as the
    /// turns before it are resolved and its commitment is held, though commitments of later turns at lower places may be missing.
    /// Taken: it was the next one, and the frames that were stashed behind it are taken with it. Stashed: it waits for the frames
    /// before it. The call takes no memory, and looks at the frames of its own turn, at those that follow the next place, and at
    /// those of the first turn that isn't resolved. Entry numbers rise from call to call, and after a conflict the window is
    /// closed: it shows what it knows, and no frame is offered any more.
    pub fn offer(
        &mut self,
        session: &Session,
        walker: &mut Walker,
        frame: &TurnFrame,
        entry: u32,
    ) -> Offer
        requires window { IsWindow session.now self.old }
        requires open_still { self.old.closed ≡ false }
        requires player { player_of frame.now ≡ self.old.player }
        requires later { EachIs (λ r. r.entry < entry) self.old.frames }
        ensures answer { result ≡ answer session.now self.old (record { entry = entry; frame = frame.now }) }
        ensures frames { self.new.frames ≡ frames_after self.old (record { entry = entry; frame = frame.now }) result }
        ensures window { IsWindow session.now self.new }
        ensures player { self.new.player ≡ self.old.player }
        ensures closed { self.new.closed ≡ W.is_conflict result }
        ensures unchanged { (result ≡ Offer.Far) ⊎ (result ≡ Offer.Same) → self.new ≡ self.old }
    {
        session.facts();
        if session.is_beyond(self.stream.next(), frame) {
            return Offer::Far;
        }
        let at = slot_of(frame);
        let received = Received {
            entry,
            frame: *frame,
        };
        match slot(&self.slots, at) {
            None => {
                let held = hold(
                    session,
                    walker,
                    self.player,
                    &mut self.slots,
                    &self.stream,
                    &received,
                );
                self.stream = held.stream;
                self.closed = is_conflict(&held.offer);
                held.offer
            }
            Some(held) => {
                if is_frame(&held, frame) {
                    return Offer::Same;
                }
                let other = slot(&self.slots, other_slot(frame));
                self.rival = Some(received);
                self.closed = true;
                Offer::Conflict(rival_clash(session, self.player, &held, &other, &received))
            }
        }
    }

    /// The digest of the commitment that is held for the turn; None where the commitment, or a frame before it, is missing.
    pub fn held(&self, turn: Turn) -> Option<Digest>
        ensures { result ≡ slice_get self.now.known.digests turn }
    {
        if turn >= self.stream.commits {
            return None;
        }
        match slot(&self.slots, commitment_slot(turn)) {
            None => None,
            Some(received) => match received.frame {
                TurnFrame::Commit { digest, .. } => Some(digest),
                TurnFrame::Reveal { .. } => None,
            },
        }
    }

    /// The move by which the turn is resolved; None where it isn't.
    pub fn move_at(&self, turn: Turn) -> Option<Move>
        ensures { result ≡ slice_get self.now.known.moves turn }
    {
        if turn >= self.stream.resolved {
            return None;
        }
        match slot(&self.slots, reveal_slot(turn)) {
            None => None,
            Some(received) => match received.frame {
                TurnFrame::Commit { .. } => None,
                TurnFrame::Reveal { mv, .. } => Some(mv),
            },
        }
    }

    /// How many turns are resolved.
    pub fn resolved(&self) -> u32
        ensures { result ≡ length self.now.known.moves }
    {
        self.stream.resolved
    }

    /// How many commitments are held.
    pub fn commits(&self) -> u32
        ensures { result ≡ length self.now.known.digests }
    {
        self.stream.commits
    }

    /// The least place of the player's stream that is not there, counted from 0.
    pub fn next(&self) -> Place
        ensures { result ≡ places_in self.now.known }
    {
        self.stream.next()
    }

    /// Where the player stands after the turns that are resolved, and its charge.
    pub fn track(&self) -> Track
        ensures { result ≡ self.now.track }
    {
        self.stream.track
    }
}
