//! What is left of a frame that is given in part.

ghost use Rattle.std.specs.Prelude.{◌≡◌, ◌≤◌, [], drop, length};
ghost use Rattle.wire_frames.specs.Spelling.{spelling};
ghost use Rattle.definitions.specs.Lists.{is_empty};

use std::marker::Model;
use wire_frames::{Frame, put_frame};

/// The last bytes of a frame, none of which was given yet: at most 64.
#[derive(Drop)]
pub struct Unsent {
    bytes: [u8; 64],
    from: usize,
    to: usize,
}

impl Model for Unsent {
    ghost use Rattle.std.specs.Prelude.{List, ℕ, take, drop, ◌≤◌};

    ghost Value = { List ℕ };

    ghost view = { λ u. drop u.from (take u.to u.bytes) };

    ghost invariant = { λ u. (u.from ≤ u.to) × (u.to ≤ 64) };
}

impl Unsent {
    /// Nothing is left.
    pub fn new() -> Unsent
        ensures { result ≡ [] }
    {
        Unsent {
            bytes: [0; 64],
            from: 0,
            to: 0,
        }
    }

    /// The bytes that are left.
    pub fn bytes(&self) -> &[u8]
        ensures bytes { result.now ≡ self.now }
        ensures few { length result.now ≤ 64 }
    {
        &self.bytes[self.from..self.to]
    }

    /// Whether none is left.
    pub fn is_empty(&self) -> bool
        ensures { result ≡ is_empty self.now }
    {
        self.from == self.to
    }

    /// All bytes of the frame are left, in place of what was.
    pub fn put(&mut self, frame: &Frame)
        ensures { self.new ≡ spelling frame.now }
    {
        self.from = 0;
        self.to = put_frame(frame, &mut self.bytes);
    }

    /// The same bytes.
    pub fn copy(&self) -> Unsent
        ensures { result ≡ self.now }
    {
        Unsent {
            bytes: self.bytes,
            from: self.from,
            to: self.to,
        }
    }

    /// So many bytes were given.
    pub fn give(&mut self, count: usize)
        requires { count ≤ length self.old }
        ensures { self.new ≡ drop count self.old }
    {
        self.from += count;
    }
}
