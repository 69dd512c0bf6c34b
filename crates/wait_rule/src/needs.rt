//! A list of needs that takes no memory.

ghost use Rattle.std.specs.Prelude.{◌≡◌, ◌<◌, ◌≤◌, [], ◌∷◌, ◌++◌, length};

use definitions::limits::MOST_NEEDS;
use definitions::{Need, What};
use std::marker::Model;

/// What stands where no need does.
const BLANK: Need = Need {
    player: 0,
    turn: 0,
    next: 0,
    what: What::Commit,
};

/// At most `MOST_NEEDS` needs, one for each other player at most.
#[derive(Drop)]
pub struct NeedList {
    items: [Need; MOST_NEEDS],
    count: usize,
}

impl Model for NeedList {
    ghost use Rattle.std.specs.Prelude.{List, take, ◌≤◌};
    ghost use Rattle.definitions.specs.declared.answers.Need.{Need};
    ghost use Rattle.definitions.specs.declared.limits.TheConstants.{MOST_NEEDS};

    ghost Value = { List Need };

    ghost view = { λ n. take n.count n.items };

    ghost invariant = { λ n. n.count ≤ MOST_NEEDS };
}

impl NeedList {
    /// The list of no needs.
    pub fn new() -> NeedList
        ensures { result ≡ [] }
    {
        NeedList {
            items: [BLANK; MOST_NEEDS],
            count: 0,
        }
    }

    /// The needs, in the order in which they were added.
    pub fn as_slice(&self) -> &[Need]
        ensures items { result.now ≡ self.now }
        ensures few { length result.now ≤ MOST_NEEDS }
    {
        &self.items[..self.count]
    }

    /// Leaves the list empty.
    pub fn clear(&mut self)
        ensures { self.new ≡ [] }
    {
        self.count = 0;
    }

    /// Adds the need at the end.
    pub fn push(&mut self, item: Need)
        requires { length self.old < MOST_NEEDS }
        ensures { self.new ≡ self.old ++ item ∷ [] }
    {
        self.items[self.count] = item;
        self.count += 1;
    }
}
