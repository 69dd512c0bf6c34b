//! The bytes that were given, and the names of logs, in a room that is taken at the start.

ghost use Rattle.std.specs.Prelude.{◌≡◌, ◌<◌, ◌≤◌, ◌-◌, ◌+◌, ◌++◌, IfOk, length, take, drop, min, []};
ghost use Rattle.std.specs.List.{list_any};
ghost use Rattle.history_book.specs.Stores.{with_part, given_parts, given_part, names_log, part_of};

use crate::copies::copy_at;
use socket_station::SocketId;
use std::alloc::{AllocError, Global};
use std::marker::Model;

/// What a part's bytes are.
#[derive(Clone, Copy)]
pub(crate) enum What {
    /// They were given on a socket.
    Given(SocketId),
    /// They are a log's name.
    LogName,
}

/// What some bytes are, and where they stand.
#[derive(Clone, Copy)]
pub(crate) struct Part {
    pub what: What,
    pub at: usize,
    pub len: usize,
}

/// Byte strings in the order in which they came, each with what it is.
#[derive(Drop)]
pub(crate) struct Store {
    parts: Vec<Part>,
    bytes: Vec<u8>,
}

impl Model for Store {
    ghost use Rattle.std.specs.Prelude.{◌-◌, map, length, vec_capacity};
    ghost use Rattle.history_book.specs.Stores.{HeldStore, part_of, AreWithin};

    ghost Value = { HeldStore };

    ghost view = { λ s. record { parts = map (part_of s.bytes.items) s.parts.items; items = vec_capacity s.parts - length s.parts.items; bytes = vec_capacity s.bytes - length s.bytes.items } };

    ghost invariant = { λ s. AreWithin (length s.bytes.items) s.parts.items };
}

impl Store {
    /// Takes room for so many byte strings with so many bytes in all.
    pub(crate) fn new(alloc: Global, items: usize, bytes: usize) -> Result<Store, AllocError>
        ensures { IfOk result (λ s. (s.parts ≡ []) × (items ≤ s.items) × (bytes ≤ s.bytes)) }
    {
        Ok(Store {
            parts: Vec::with_capacity(alloc, items)?,
            bytes: Vec::with_capacity(alloc, bytes)?,
        })
    }

    /// Adds a byte string.
    pub(crate) fn push(&mut self, what: What, bytes: &[u8])
        requires items { 0 < self.old.items }
        requires bytes { length bytes.now ≤ self.old.bytes }
        ensures parts { self.new.parts ≡ with_part what bytes.now self.old.parts }
        ensures items_left { self.old.items ≤ self.new.items + 1 }
        ensures bytes_left { self.old.bytes ≤ self.new.bytes + length bytes.now }
    {
        let at = self.bytes.len();
        self.bytes.extend_from_slice(bytes).unwrap();
        let part = Part {
            what,
            at,
            len: bytes.len(),
        };
        self.parts.push(part).unwrap();
    }

    /// Whether there is a log of that name.
    pub(crate) fn has_log(&self, name: &[u8]) -> bool
        ensures { result ≡ list_any (names_log name.now) self.now.parts }
    {
        for part in self.parts.as_slice() {
            if is_log_name(self.bytes.as_slice(), part, name) {
                return true;
            }
        }
        false
    }

    /// Copies the bytes given on a socket from number `at` on, as many as there are and fit.
    pub(crate) fn given(&self, socket: SocketId, at: usize, out: &mut [u8]) -> usize
        ensures count { result ≡ min (length out.old) (length (drop at (given_parts socket self.now.parts))) }
        ensures bytes { out.new ≡ take result (drop at (given_parts socket self.now.parts)) ++ drop result out.old }
    {
        let mut skip = at;
        let mut done = 0;
        for part in self.parts.as_slice() {
            let bytes = given_bytes(self.bytes.as_slice(), part, socket);
            let from = skip.min(bytes.len());
            skip -= from;
            done += copy_at(bytes, from, out, done);
        }
        done
    }
}

/// Whether a part is that name of a log.
fn is_log_name(bytes: &[u8], part: &Part, name: &[u8]) -> bool
    requires { part.now.at + part.now.len ≤ length bytes.now }
    ensures { result ≡ names_log name.now (part_of bytes.now part.now) }
{
    match part.what {
        What::Given(_) => false,
        What::LogName => {
            let at = part.at;
            let end = at + part.len;
            &bytes[at..end] == name
        }
    }
}

/// The bytes of a part that was given on a socket.
fn given_bytes<'a>(bytes: &'a [u8], part: &Part, socket: SocketId) -> &'a [u8]
    requires { part.now.at + part.now.len ≤ length bytes.now }
    ensures { result.now ≡ given_part socket (part_of bytes.now part.now) }
{
    match part.what {
        What::Given(number) if number == socket => {
            let at = part.at;
            let end = at + part.len;
            &bytes[at..end]
        }
        _ => &bytes[..0],
    }
}
