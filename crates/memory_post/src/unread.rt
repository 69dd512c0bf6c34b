//! The datagrams that came and were not taken.

ghost use Rattle.std.specs.Prelude.{◌≡◌, ◌<◌, ◌≤◌, ◌++◌, ◌∷◌, [], true, IfOk, length, min, take, nat_lt, if◌then◌else◌, Ok, Err};
ghost use Rattle.datagram_post.specs.Withins.{TakesWithin};
ghost use Rattle.memory_post.specs.Unreads.{front_size, receive_answer, unread_after, TakesFront};

use bytes::Bytes;
use datagram_post::{MOST_TAKEN, Received};
use std::alloc::{AllocError, Global};
use std::collections::VecDeque;
use std::marker::Model;

/// How many datagrams may stand unread.
pub(crate) const MOST_UNREAD: usize = 65_536;

/// Datagrams in the order in which they came.
#[derive(Drop)]
pub(crate) struct Unread {
    queue: VecDeque<Bytes>,
}

impl Model for Unread {
    ghost use Rattle.std.specs.Prelude.{List, ◌≤◌, ℕ};
    ghost use Rattle.std.specs.VecDeque.{deque_capacity};
    ghost use Rattle.memory_post.specs.declared.unread.TheConstants.{MOST_UNREAD};

    ghost Value = { List (List ℕ) };

    ghost view = { λ u. u.queue.items };

    ghost invariant = { λ u. MOST_UNREAD ≤ deque_capacity u.queue };
}

/// Copies the first bytes of a datagram, as many as fit, and says how many.
fn copy_front(from: &[u8], buf: &mut [u8; 128]) -> usize
    ensures count { result ≡ min (length from.now) 128 }
    ensures bytes { take result buf.new ≡ take result from.now }
{
    let count = from.len().min(MOST_TAKEN);
    buf[..count].copy_from_slice(&from[..count]);
    count
}

impl Unread {
    /// None came. It takes room for `MOST_UNREAD` of them.
    pub(crate) fn new(alloc: Global) -> Result<Unread, AllocError>
        ensures { IfOk result (λ u. u ≡ []) }
    {
        Ok(Unread {
            queue: VecDeque::with_capacity(alloc, MOST_UNREAD)?,
        })
    }

    /// One more comes, unless too many stand unread: then it is given back.
    pub(crate) fn bring(&mut self, datagram: Bytes) -> Result<(), Bytes>
        ensures full { result ≡ (if nat_lt (length self.old) MOST_UNREAD then Ok tt else Err datagram) }
        ensures after { self.new ≡ (if nat_lt (length self.old) MOST_UNREAD then self.old ++ datagram ∷ [] else self.old) }
    {
        if self.queue.len() < MOST_UNREAD {
            self.queue.push_back(datagram).unwrap();
            Ok(())
        } else {
            Err(datagram)
        }
    }

    /// How many bytes of the first one are taken.
    pub(crate) fn front_size(&self) -> usize
        ensures { result ≡ front_size self.now }
    {
        match self.queue.front() {
            Some(datagram) => datagram.len().min(MOST_TAKEN),
            None => 0,
        }
    }

    /// Takes the first one, where the call goes on.
    pub(crate) fn receive(&mut self, goes: bool, buf: &mut [u8; 128]) -> Received
        ensures answer { result ≡ receive_answer goes self.old }
        ensures within { TakesWithin result }
        ensures bytes { TakesFront result buf.new self.old }
        ensures after { self.new ≡ unread_after goes self.old }
    {
        if !goes {
            return Received::Failed;
        }
        match self.queue.pop_front() {
            Some(datagram) => Received::Took(copy_front(&datagram, buf)),
            None => Received::NotYet,
        }
    }
}
