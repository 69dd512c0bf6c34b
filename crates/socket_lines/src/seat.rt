//! What is known of another player.

ghost use Rattle.std.specs.Prelude.{◌≡◌, ◌≤◌, ◌<◌, ◌+◌, ◌^◌, IfOk, IsFalse};
ghost use Rattle.socket_lines.specs.declared.limits.TheConstants.{MOST_WANTS};
ghost use Rattle.socket_lines.specs.Seats as S;
ghost use Rattle.socket_lines.specs.Asks.{is_asked};

use crate::asks::Asks;
use crate::limits::{MOST_BYTES, MOST_WANTS};
use definitions::Place;
use rosters::Link;
use std::alloc::{AllocError, Global};

/// What is known of another player, whichever sockets it had.
#[derive(Drop)]
pub struct Seat {
    /// Where it is, and the passes.
    pub link: Link,
    /// The bytes that count as read of it, on all sockets that it named, each HELLO with them.
    pub spent: u32,
    /// How many of its WANT frames were obeyed.
    pub wants: u32,
    /// How many own frames it has, as far as is known: those below the greatest place that it asked for, and those wholly given to it behind
    /// them.
    pub given: Place,
    /// The places that it is to be asked for.
    pub asks: Asks,
    /// Whether it was dialled since the last poll.
    pub is_dialled: bool,
}

impl Seat {
    /// The seat of a player of whom nothing came. No place above this one is asked for. All memory is taken here.
    pub fn new(alloc: Global, link: Link, most: Place) -> Result<Seat, AllocError>
        ensures { IfOk result (λ t. t ≡ S.new_seat most link) }
    {
        Ok(Seat {
            link,
            spent: 0,
            wants: 0,
            given: 0,
            asks: Asks::new(alloc, most)?,
            is_dialled: false,
        })
    }

    /// How many bytes may still be read of it.
    pub fn room(&self) -> u32
        ensures { result ≡ S.room_of self.now }
    {
        MOST_BYTES.saturating_sub(self.spent)
    }

    /// Whether nothing more is read of it. Then it is dialled no more.
    pub fn is_spent(&self) -> bool
        ensures { result ≡ S.is_spent self.now }
    {
        self.spent >= MOST_BYTES
    }

    /// Whether this pass is the one that is wanted of it, and bytes of it may still be read.
    pub fn lets_name(&self, pass: &[u8; 16]) -> bool
        ensures { result ≡ S.lets_name self.now pass.now }
    {
        *pass == self.link.wants && !self.is_spent()
    }

    /// Whether one more of its WANT frames is obeyed.
    pub fn may_want(&self) -> bool
        ensures { result ≡ S.may_want self.now }
    {
        self.wants < MOST_WANTS
    }

    /// So many bytes of it came.
    pub fn spend(&mut self, count: u32)
        requires { self.old.spent + count < 2 ^ 32 }
        ensures { self.new ≡ S.spends count self.old }
    {
        self.spent += count;
    }

    /// It asked for the own frames from this place on.
    pub fn reach(&mut self, place: Place)
        ensures { self.new ≡ S.reaches place self.old }
    {
        if self.given < place {
            self.given = place;
        }
    }

    /// It named a socket by a HELLO that asks for this place; that socket had so many bytes until then.
    pub fn name(&mut self, taken: u32, place: Place)
        requires { self.old.spent + taken < 2 ^ 32 }
        ensures { self.new ≡ S.names taken place self.old }
    {
        self.spend(taken);
        self.reach(place);
        self.asks.clear();
    }

    /// A WANT of it was obeyed.
    pub fn obey(&mut self)
        requires { self.old.wants < MOST_WANTS }
        ensures { self.new ≡ S.obeys self.old }
    {
        self.wants += 1;
    }

    /// A frame of it was far: it is to be asked for this place, unless it was asked for it or a greater one.
    pub fn ask(&mut self, place: Place)
        requires { place ≤ self.old.asks.most }
        ensures { self.new ≡ S.asks place self.old }
    {
        if !self.asks.is_asked(place) {
            self.asks.ask(place);
        }
    }

    /// It was dialled, with success or not.
    pub fn dial(&mut self)
        ensures { self.new ≡ S.dials self.old }
    {
        self.is_dialled = true;
    }

    /// A poll was made: it may be dialled again.
    pub fn rest(&mut self)
        ensures { self.new ≡ S.rests self.old }
    {
        self.is_dialled = false;
    }

    /// Whether it lacks one of so many own frames.
    pub fn lacks(&self, made: Place) -> bool
        ensures { result ≡ S.lacks made self.now }
    {
        self.given < made
    }
}
