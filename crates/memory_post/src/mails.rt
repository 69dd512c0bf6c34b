//! The datagrams that were given, in a room that is taken at the start.

ghost use Rattle.std.specs.Prelude.{◌≡◌, ◌<◌, ◌≤◌, ◌+◌, ◌++◌, ◌∷◌, [], Some, slice_get, IfOk, length, take, drop};
ghost use Rattle.datagram_post.specs.Moved.{Mail};

use socket_station::Addr;
use std::alloc::{AllocError, Global};
use std::marker::Model;

/// Where a datagram went, and where its bytes stand among all bytes: from which place on, and how
/// many.
#[derive(Clone, Copy)]
pub(crate) struct Part {
    pub to: Addr,
    pub at: usize,
    pub len: usize,
}

/// Datagrams in the order in which they were given.
#[derive(Drop)]
pub(crate) struct Mails {
    parts: Vec<Part>,
    bytes: Vec<u8>,
}

impl Model for Mails {
    ghost use Rattle.std.specs.Prelude.{◌-◌, map, length, vec_capacity};
    ghost use Rattle.memory_post.specs.HeldMails.{HeldMails, mail_of, AreWithin};

    ghost Value = { HeldMails };

    ghost view = { λ s. record { all = map (mail_of s.bytes.items) s.parts.items; items = vec_capacity s.parts - length s.parts.items; bytes = vec_capacity s.bytes - length s.bytes.items } };

    ghost invariant = { λ s. AreWithin (length s.bytes.items) s.parts.items };
}

impl Mails {
    /// Takes room for so many datagrams with so many bytes in all.
    pub(crate) fn new(alloc: Global, items: usize, bytes: usize) -> Result<Mails, AllocError>
        ensures { IfOk result (λ s. (s.all ≡ []) × (items ≤ s.items) × (bytes ≤ s.bytes)) }
    {
        Ok(Mails {
            parts: Vec::with_capacity(alloc, items)?,
            bytes: Vec::with_capacity(alloc, bytes)?,
        })
    }

    /// Adds a datagram.
    pub(crate) fn push(&mut self, to: Addr, bytes: &[u8])
        requires items { 0 < self.old.items }
        requires bytes { length bytes.now ≤ self.old.bytes }
        ensures all { self.new.all ≡ self.old.all ++ record { to = to; bytes = bytes.now } ∷ [] }
        ensures items_left { self.old.items ≤ self.new.items + 1 }
        ensures bytes_left { self.old.bytes ≤ self.new.bytes + length bytes.now }
    {
        let at = self.bytes.len();
        self.bytes.extend_from_slice(bytes).unwrap();
        let part = Part {
            to,
            at,
            len: bytes.len(),
        };
        self.parts.push(part).unwrap();
    }

    /// How many there are.
    pub(crate) fn count(&self) -> usize
        ensures { result ≡ length self.now.all }
    {
        let _ = &self.bytes;
        self.parts.len()
    }

    /// Where the one at this place went, counted from 0.
    pub(crate) fn to(&self, place: usize) -> Addr
        requires { place < length self.now.all }
        ensures { (m : Mail) → slice_get self.now.all place ≡ Some m → result ≡ m.to }
    {
        let _ = &self.bytes;
        self.parts[place].to
    }

    /// The bytes of the one at this place, counted from 0.
    pub(crate) fn bytes(&self, place: usize) -> &[u8]
        requires { place < length self.now.all }
        ensures { (m : Mail) → slice_get self.now.all place ≡ Some m → result.now ≡ m.bytes }
    {
        part_bytes(self.bytes.as_slice(), &self.parts[place])
    }
}

/// The bytes of a part, which stands among all bytes.
fn part_bytes<'a>(bytes: &'a [u8], part: &Part) -> &'a [u8]
    requires { part.now.at + part.now.len ≤ length bytes.now }
    ensures { result.now ≡ take part.now.len (drop part.now.at bytes.now) }
{
    let at = part.at;
    let end = at + part.len;
    &bytes[at..end]
}
