//! What a poll lists, in a list of fixed room.

ghost use Rattle.std.specs.Prelude.{◌≡◌, ◌<◌, ◌≤◌, ◌∷◌, ◌++◌, [], length};

use crate::answers::Ready;
use std::marker::Model;

/// How many items a poll lists at most.
pub const MOST_READY: usize = 64;

/// At most `MOST_READY` items.
#[derive(Drop)]
pub struct ReadyList {
    items: [Ready; MOST_READY],
    len: usize,
}

impl Model for ReadyList {
    ghost use Rattle.std.specs.Prelude.{List, take, ◌≤◌};
    ghost use Rattle.socket_station.specs.declared.answers.Ready.{Ready};
    ghost use Rattle.socket_station.specs.declared.ready_list.TheConstants.{MOST_READY};

    ghost Value = { List Ready };

    ghost view = { λ r. take r.len r.items };

    ghost invariant = { λ r. r.len ≤ MOST_READY };
}

impl ReadyList {
    /// Is empty.
    pub fn new() -> ReadyList
        ensures { result ≡ [] }
    {
        ReadyList {
            items: [Ready::Socket(0); MOST_READY],
            len: 0,
        }
    }

    /// The items.
    pub fn as_slice(&self) -> &[Ready]
        ensures items { result.now ≡ self.now }
        ensures few { length result.now ≤ MOST_READY }
    {
        &self.items[..self.len]
    }

    /// Leaves the list empty.
    pub fn clear(&mut self)
        ensures { self.new ≡ [] }
    {
        self.len = 0;
    }

    /// Adds the item at the end.
    pub fn push(&mut self, item: Ready)
        requires { length self.old < MOST_READY }
        ensures { self.new ≡ self.old ++ item ∷ [] }
    {
        self.items[self.len] = item;
        self.len += 1;
    }
}
