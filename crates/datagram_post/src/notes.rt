//! What a post answered so far, which only proofs read.
//!
//! A post whose answers come from elsewhere, as from the machine, notes each of them here, and
//! tells its history by that. The notes take no memory, and noting does nothing when the program
//! runs.

ghost use Rattle.std.specs.Prelude.{◌≡◌, ◌∷◌, ◌++◌, []};
ghost use Rattle.datagram_post.specs.Items.{bind_item, log_item, poll_item, receive_item, send_item, keep_item, sync_item};
ghost use Rattle.datagram_post.specs.Noted.{did_of, sent_of};

use crate::answers::{Received, Sent};
use record::Record;
use socket_station::{Addr, Did};
use std::marker::Model;

// Which call a note is of. The numbers of a note are the call, its answer, and a count or a port.
const BIND: u64 = 0;

const LOG_TO: u64 = 1;

const POLL: u64 = 2;

const RECEIVE: u64 = 3;

const SEND: u64 = 4;

const KEEP: u64 = 5;

const SYNC: u64 = 6;

// Which answer a note is of.
const DONE: u64 = 0;

const FAILED: u64 = 1;

const NOT_YET: u64 = 2;

/// The history of a post.
#[derive(Drop)]
pub struct PostNotes {
    record: Record,
}

impl Model for PostNotes {
    ghost use Rattle.std.specs.Prelude.{List};
    ghost use Rattle.datagram_post.specs.Items.{Item};
    ghost use Rattle.datagram_post.specs.Noted.{noted_in};

    ghost Value = { List Item };

    ghost view = { λ n. noted_in n.record.notes };
}

impl PostNotes {
    /// No call was made.
    pub fn new() -> PostNotes
        ensures { result ≡ [] }
    {
        PostNotes {
            record: Record::new(),
        }
    }

    /// A `bind` answered this.
    pub fn bind(&mut self, did: Did, addr: Addr)
        ensures { self.new ≡ self.old ++ bind_item did addr ∷ [] }
    {
        let port = addr.port as u64;
        self.record
            .note(&[BIND, did_number(did), port], &addr.ip, &[]);
    }

    /// A `log_to` answered this.
    pub fn log_to(&mut self, did: Did, name: &[u8])
        ensures { self.new ≡ self.old ++ log_item did name.now ∷ [] }
    {
        self.record.note(&[LOG_TO, did_number(did)], name, &[]);
    }

    /// A `poll` answered this.
    pub fn poll(&mut self, did: Did)
        ensures { self.new ≡ self.old ++ poll_item did ∷ [] }
    {
        self.record.note(&[POLL, did_number(did)], &[], &[]);
    }

    /// A `receive` answered this. What was taken stands at the front of the buffer.
    pub fn receive(&mut self, received: Received, buf: &[u8])
        ensures { self.new ≡ self.old ++ receive_item received buf.now ∷ [] }
    {
        match received {
            Received::Took(count) => self.record.note(&[RECEIVE, DONE, count as u64], &[], buf),
            Received::NotYet => self.record.note(&[RECEIVE, NOT_YET], &[], &[]),
            Received::Failed => self.record.note(&[RECEIVE, FAILED], &[], &[]),
        }
    }

    /// A `send` answered this.
    pub fn send(&mut self, sent: Sent, addr: Addr, bytes: &[u8])
        ensures { self.new ≡ self.old ++ send_item sent addr bytes.now ∷ [] }
    {
        let port = addr.port as u64;
        self.record
            .note(&[SEND, sent_number(sent), port], &addr.ip, bytes);
    }

    /// A `keep` answered this.
    pub fn keep(&mut self, did: Did, bytes: &[u8])
        ensures { self.new ≡ self.old ++ keep_item did bytes.now ∷ [] }
    {
        self.record.note(&[KEEP, did_number(did)], &[], bytes);
    }

    /// A `sync` answered this.
    pub fn sync(&mut self, did: Did)
        ensures { self.new ≡ self.old ++ sync_item did ∷ [] }
    {
        self.record.note(&[SYNC, did_number(did)], &[], &[]);
    }
}

/// The number that an answer is noted by.
fn did_number(did: Did) -> u64
    ensures { did_of result ≡ did }
{
    match did {
        Did::Done => DONE,
        Did::Failed => FAILED,
    }
}

/// The number that the answer of a send is noted by.
fn sent_number(sent: Sent) -> u64
    ensures { sent_of result ≡ sent }
{
    match sent {
        Sent::Gave => DONE,
        Sent::NotYet => NOT_YET,
        Sent::Failed => FAILED,
    }
}
