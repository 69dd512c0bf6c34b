//! The places that a player is to be asked for.

ghost use Rattle.std.specs.Prelude.{◌≡◌, ◌≤◌, ◌<◌, ◌+◌, ◌^◌, [], ◌∷◌, ◌++◌, Some, None, IfOk, drop, slice_get, vec_capacity, IsFalse};
ghost use Rattle.socket_lines.specs.Asks.{is_asked};

use definitions::Place;
use std::alloc::{AllocError, Global};
use std::marker::Model;

/// The places by which a player is asked to go on, each greater than the one before, and no greater than the most. Those of which no byte was
/// given are due.
#[derive(Drop)]
pub struct Asks {
    places: Vec<Place>,
    from: usize,
    last: Option<Place>,
    most: Place,
}

impl Model for Asks {
    ghost use Rattle.std.specs.Prelude.{◌≤◌, ◌<◌, ◌+◌, ◌^◌, drop, length, vec_capacity};
    ghost use Rattle.socket_lines.specs.Asks.{AskList, upto};

    ghost Value = { AskList };

    ghost view = { λ a. record { most = a.most; last = a.last; due = drop a.from a.places.items } };

    // each place is greater than the one before, so there are no more of them than the last one and it
    ghost invariant = { λ a. (length a.places.items ≤ upto a.last) × (upto a.last ≤ a.most + 1) × (a.from ≤ length a.places.items) × (a.most < vec_capacity a.places) };
}

impl Asks {
    /// Nothing was asked for, and no place above this one will be. All memory is taken here.
    pub fn new(alloc: Global, most: Place) -> Result<Asks, AllocError>
        ensures { IfOk result (λ a. a ≡ record { most = most; last = None; due = [] }) }
    {
        Ok(Asks {
            places: Vec::with_capacity(alloc, most as usize + 1)?,
            from: 0,
            last: None,
            most,
        })
    }

    /// Whether this place or a greater one was asked for.
    pub fn is_asked(&self, place: Place) -> bool
        ensures { result ≡ is_asked self.now place }
    {
        match self.last {
            Some(last) => place <= last,
            None => false,
        }
    }

    /// The place is to be asked for, behind those that are due.
    pub fn ask(&mut self, place: Place)
        requires few { place ≤ self.old.most }
        requires greater { IsFalse (is_asked self.old place) }
        ensures { self.new ≡ record self.old { last = Some place; due = self.old.due ++ place ∷ [] } }
    {
        self.places.push(place).unwrap();
        self.last = Some(place);
    }

    /// The first place that is due.
    pub fn first(&self) -> Option<Place>
        ensures { result ≡ slice_get self.now.due 0 }
    {
        self.places.get(self.from).copied()
    }

    /// The first place that is due was asked for.
    pub fn take_first(&mut self)
        ensures { self.new ≡ record self.old { due = drop 1 self.old.due } }
    {
        if self.from < self.places.len() {
            self.from += 1;
        }
    }

    /// Nothing is due any more.
    pub fn clear(&mut self)
        ensures { self.new ≡ record self.old { due = [] } }
    {
        self.from = self.places.len();
    }
}
