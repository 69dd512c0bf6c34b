//! The post in memory.

ghost use Rattle.std.specs.Prelude.{◌≡◌, ◌<◌, ◌≤◌, ◌-◌, ◌++◌, ◌∷◌, ◌&&◌, not, Some, [], IfOk, length, nat_lt, slice_get, if◌then◌else◌, Ok, Err};
ghost use Rattle.datagram_post.specs.Items.{did_by, bind_item, log_item, poll_item, receive_item, send_item, keep_item, sync_item};
ghost use Rattle.datagram_post.specs.Moved.{Mail, given_in, kept_in};
ghost use Rattle.datagram_post.specs.Withins.{TakesWithin};
ghost use Rattle.memory_post.specs.Answers.{sent_by};
ghost use Rattle.memory_post.specs.HeldPosts.{new_post, goes_on, called, is_begun};
ghost use Rattle.memory_post.specs.Unreads.{front_size, receive_answer, unread_after, TakesFront};

use crate::ledger::Ledger;
use crate::mails::Mails;
use crate::unread::{MOST_UNREAD, Unread};
use bytes::Bytes;
use datagram_post::{Post, PostNotes, Received, Sent};
use socket_station::{Addr, Did};
use std::alloc::{AllocError, Global};
use std::marker::Model;

/// A post whose datagrams a harness brings. Its calls are counted from 1, those of the trait
/// alone.
#[derive(Drop)]
pub struct MemoryPost {
    notes: PostNotes,
    events: u32,
    ledger: Ledger,
    unread: Unread,
    mails: Mails,
    kept: Vec<u8>,
    begun: bool,
}

impl Model for MemoryPost {
    ghost use Rattle.memory_post.specs.HeldPosts.{HeldPost, IsPost};

    ghost Value = { HeldPost };

    ghost view = { λ p. record { history = p.notes; events = p.events; ledger = p.ledger; unread = p.unread } };

    ghost invariant = { λ p. IsPost p };
}

/// What a call answers that only may fail.
fn did(goes: bool) -> Did
    ensures { result ≡ did_by goes }
{
    if goes { Did::Done } else { Did::Failed }
}

/// What a send answers.
fn sent(goes: bool) -> Sent
    ensures { result ≡ sent_by goes }
{
    if goes { Sent::Gave } else { Sent::Failed }
}

impl MemoryPost {
    /// Takes room for so many history items and bytes. A call for whose item the rest doesn't
    /// suffice fails, and so does each later one. It is an error where memory is wanting.
    pub fn new(alloc: Global, events: u32, bytes: u32) -> Result<MemoryPost, AllocError>
        ensures { IfOk result (λ p. p ≡ new_post events bytes) }
    {
        let items = events as usize;
        let bytes = bytes as usize;
        Ok(MemoryPost {
            notes: PostNotes::new(),
            events,
            ledger: Ledger::new(alloc, items, bytes)?,
            unread: Unread::new(alloc)?,
            mails: Mails::new(alloc, items, bytes)?,
            kept: Vec::with_capacity(alloc, bytes)?,
            begun: false,
        })
    }

    /// Makes the call of that number fail. At most 64 numbers are given in all.
    pub fn fail_call(&mut self, number: u32)
        requires { length self.old.ledger.named < 64 }
        ensures { self.new ≡ record self.old { ledger = record self.old.ledger { named = self.old.ledger.named ++ number ∷ [] } } }
    {
        self.ledger.fail_call(number);
    }

    /// A datagram comes, unless 65,536 stand unread: then it is given back as the error.
    pub fn bring(&mut self, datagram: Bytes) -> Result<(), Bytes>
        ensures full { result ≡ (if nat_lt (length self.old.unread) 65536 then Ok tt else Err datagram) }
        ensures after { self.new ≡ record self.old { unread = if nat_lt (length self.old.unread) 65536 then self.old.unread ++ datagram ∷ [] else self.old.unread } }
    {
        self.unread.bring(datagram)
    }

    /// How many datagrams were given in all.
    pub fn sent(&self) -> u32
        ensures { result ≡ length (given_in self.now.history) }
    {
        let _ = &self.notes;
        self.mails.count() as u32
    }

    /// Where the datagram of this number went, counted from 0.
    pub fn sent_to(&self, index: u32) -> Addr
        requires { index < length (given_in self.now.history) }
        ensures { (m : Mail) → slice_get (given_in self.now.history) index ≡ Some m → result ≡ m.to }
    {
        let _ = &self.notes;
        self.mails.to(index as usize)
    }

    /// The bytes of the datagram of this number, counted from 0.
    pub fn sent_bytes(&self, index: u32) -> &[u8]
        requires { index < length (given_in self.now.history) }
        ensures { (m : Mail) → slice_get (given_in self.now.history) index ≡ Some m → result.now ≡ m.bytes }
    {
        let _ = &self.notes;
        self.mails.bytes(index as usize)
    }

    /// The bytes kept, joined.
    pub fn kept(&self) -> &[u8]
        ensures { result.now ≡ kept_in self.now.history }
    {
        let _ = &self.notes;
        self.kept.as_slice()
    }

    /// How many items the history has, up to the first call for whose item the room didn't
    /// suffice, if there was one.
    pub fn items(&self) -> u32
        ensures { result ≡ self.now.events - self.now.ledger.items }
    {
        let _ = &self.notes;
        self.events - self.ledger.items() as u32
    }
}

impl Post for MemoryPost {
    ghost history = { λ p. p.history };

    fn bind(&mut self, addr: Addr) -> Did
        ensures after { self.new.history ≡ self.old.history ++ bind_item result addr ∷ [] }
        ensures answer { result ≡ did_by (goes_on self.old 0) }
        ensures state { self.new ≡ called (bind_item result addr) 0 self.old }
    {
        let goes = self.ledger.charge(0);
        let did = did(goes);
        self.notes.bind(did, addr);
        did
    }

    /// One log is begun on a post.
    fn log_to(&mut self, name: &[u8]) -> Did
        ensures after { self.new.history ≡ self.old.history ++ log_item result name.now ∷ [] }
        ensures answer { result ≡ did_by (goes_on self.old (length name.now) && not (is_begun self.old.history)) }
        ensures state { self.new ≡ called (log_item result name.now) (length name.now) self.old }
    {
        let goes = self.ledger.charge(name.len());
        let did = did(goes & !self.begun);
        self.begun |= goes;
        self.notes.log_to(did, name);
        did
    }

    fn poll(&mut self) -> Did
        ensures after { self.new.history ≡ self.old.history ++ poll_item result ∷ [] }
        ensures answer { result ≡ did_by (goes_on self.old 0) }
        ensures state { self.new ≡ called (poll_item result) 0 self.old }
    {
        let goes = self.ledger.charge(0);
        let did = did(goes);
        self.notes.poll(did);
        did
    }

    fn receive(&mut self, buf: &mut [u8; 128]) -> Received
        ensures within { TakesWithin result }
        ensures after { self.new.history ≡ self.old.history ++ receive_item result buf.new ∷ [] }
        ensures answer { result ≡ receive_answer (goes_on self.old (front_size self.old.unread)) self.old.unread }
        ensures bytes { TakesFront result buf.new self.old.unread }
        ensures state { self.new ≡ record (called (receive_item result buf.new) (front_size self.old.unread) self.old) { unread = unread_after (goes_on self.old (front_size self.old.unread)) self.old.unread } }
    {
        let goes = self.ledger.charge(self.unread.front_size());
        let received = self.unread.receive(goes, buf);
        self.notes.receive(received, buf);
        received
    }

    fn send(&mut self, addr: Addr, bytes: &[u8]) -> Sent
        ensures after { self.new.history ≡ self.old.history ++ send_item result addr bytes.now ∷ [] }
        ensures answer { result ≡ sent_by (goes_on self.old (length bytes.now)) }
        ensures state { self.new ≡ called (send_item result addr bytes.now) (length bytes.now) self.old }
    {
        let goes = self.ledger.charge(bytes.len());
        if goes {
            self.mails.push(addr, bytes);
        }
        let sent = sent(goes);
        self.notes.send(sent, addr, bytes);
        sent
    }

    fn keep(&mut self, bytes: &[u8]) -> Did
        ensures after { self.new.history ≡ self.old.history ++ keep_item result bytes.now ∷ [] }
        ensures answer { result ≡ did_by (goes_on self.old (length bytes.now)) }
        ensures state { self.new ≡ called (keep_item result bytes.now) (length bytes.now) self.old }
    {
        let goes = self.ledger.charge(bytes.len());
        if goes {
            self.kept.extend_from_slice(bytes).unwrap();
        }
        let did = did(goes);
        self.notes.keep(did, bytes);
        did
    }

    fn sync(&mut self) -> Did
        ensures after { self.new.history ≡ self.old.history ++ sync_item result ∷ [] }
        ensures answer { result ≡ did_by (goes_on self.old 0) }
        ensures state { self.new ≡ called (sync_item result) 0 self.old }
    {
        let goes = self.ledger.charge(0);
        let did = did(goes);
        self.notes.sync(did);
        did
    }
}
