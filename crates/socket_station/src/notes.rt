//! What a station answered so far, which only proofs read.
//!
//! A station whose answers come from elsewhere, as from the machine, notes each of them here, and tells its history by that. The notes
//! take no memory, and noting does nothing when the program runs.

ghost use Rattle.std.specs.Prelude.{◌≡◌, ◌≤◌, ◌∷◌, ◌++◌, [], length, take};
ghost use Rattle.socket_station.specs.Items.{listen_item, log_item, dial_item, poll_item, read_item, write_item, Shut, keep_item, sync_item};
ghost use Rattle.socket_station.specs.Noted.{noted_in, did_of, read_of, write_of, with_list};

use crate::answers::{Addr, Dial, Did, Ready, SocketId, SocketRead, SocketWrite};
use definitions::PlayerId;
use record::Record;
use std::marker::Model;

// Which call a note is of. The numbers of a note are the call, its answer, a socket or a player, and a count, a socket or a port.
const LISTEN: u64 = 0;

const LOG_TO: u64 = 1;

const DIAL: u64 = 2;

const POLL: u64 = 3;

const READ: u64 = 4;

const WRITE: u64 = 5;

const SHUT: u64 = 6;

const KEEP: u64 = 7;

const SYNC: u64 = 8;

// What a poll listed is noted item by item before the poll is.
const LISTED_OPENED: u64 = 9;

const LISTED_SOCKET: u64 = 10;

// Which answer a note is of.
const DONE: u64 = 0;

const FAILED: u64 = 1;

const NOT_YET: u64 = 2;

const ENDED: u64 = 3;

/// The history of a station.
#[derive(Drop)]
pub struct StationNotes {
    record: Record,
}

impl Model for StationNotes {
    ghost use Rattle.std.specs.Prelude.{◌≡◌, List, []};
    ghost use Rattle.socket_station.specs.Items.{Item};
    ghost use Rattle.socket_station.specs.Noted.{noted_in};

    ghost Value = { List Item };

    ghost view = { λ n. (noted_in n.record.notes).items };

    ghost invariant = { λ n. (noted_in n.record.notes).list ≡ [] };
}

impl StationNotes {
    /// No call was made.
    pub fn new() -> StationNotes
        ensures { result ≡ [] }
    {
        StationNotes {
            record: Record::new(),
        }
    }

    /// A `listen` answered this.
    pub fn listen(&mut self, did: Did, addr: Addr)
        ensures { self.new ≡ self.old ++ listen_item did addr ∷ [] }
    {
        let port = addr.port as u64;
        self.record
            .note(&[LISTEN, did_number(did), 0, port], &addr.ip, &[]);
    }

    /// A `log_to` answered this.
    pub fn log_to(&mut self, did: Did, name: &[u8])
        ensures { self.new ≡ self.old ++ log_item did name.now ∷ [] }
    {
        self.record.note(&[LOG_TO, did_number(did)], name, &[]);
    }

    /// A `dial` answered this.
    pub fn dial(&mut self, dial: Dial, player: PlayerId, addr: Addr)
        ensures { self.new ≡ self.old ++ dial_item dial player addr ∷ [] }
    {
        let player = player as u64;
        let port = addr.port as u64;
        match dial {
            Dial::Socket(socket) => {
                let socket = socket as u64;
                self.record
                    .note(&[DIAL, DONE, player, port, socket], &addr.ip, &[]);
            }
            Dial::Failed => self
                .record
                .note(&[DIAL, FAILED, player, port], &addr.ip, &[]),
        }
    }

    /// A `poll` answered this, with that list.
    pub fn poll(&mut self, did: Did, ready: &[Ready])
        ensures { self.new ≡ self.old ++ poll_item did ready.now ∷ [] }
    {
        note_list(&mut self.record, ready);
        self.record.note(&[POLL, did_number(did)], &[], &[]);
    }

    /// A `read` answered this. What was taken stands at the front of the buffer.
    pub fn read(&mut self, socket: SocketId, read: SocketRead, buf: &[u8])
        ensures { self.new ≡ self.old ++ read_item socket read buf.now ∷ [] }
    {
        let socket = socket as u64;
        match read {
            SocketRead::Took(count) => self
                .record
                .note(&[READ, DONE, socket, count as u64], &[], buf),
            SocketRead::NotYet => self.record.note(&[READ, NOT_YET, socket], &[], &[]),
            SocketRead::Ended => self.record.note(&[READ, ENDED, socket], &[], &[]),
            SocketRead::Failed => self.record.note(&[READ, FAILED, socket], &[], &[]),
        }
    }

    /// A `write` answered this. What was given stands at the front of the bytes.
    pub fn write(&mut self, socket: SocketId, write: SocketWrite, bytes: &[u8])
        ensures { self.new ≡ self.old ++ write_item socket write bytes.now ∷ [] }
    {
        let socket = socket as u64;
        match write {
            SocketWrite::Gave(count) => self
                .record
                .note(&[WRITE, DONE, socket, count as u64], &[], bytes),
            SocketWrite::NotYet => self.record.note(&[WRITE, NOT_YET, socket], &[], &[]),
            SocketWrite::Failed => self.record.note(&[WRITE, FAILED, socket], &[], &[]),
        }
    }

    /// A socket was shut.
    pub fn shut(&mut self, socket: SocketId)
        ensures { self.new ≡ self.old ++ Shut socket ∷ [] }
    {
        self.record.note(&[SHUT, DONE, socket as u64], &[], &[]);
    }

    /// A `keep` answered this.
    pub fn keep(&mut self, did: Did, bytes: &[u8])
        ensures { self.new ≡ self.old ++ keep_item did bytes.now ∷ [] }
    {
        self.record.note(&[KEEP, did_number(did)], &[], bytes);
    }

    /// A `sync` answered this.
    pub fn sync(&mut self, did: Did)
        ensures { self.new ≡ self.old ++ sync_item did ∷ [] }
    {
        self.record.note(&[SYNC, did_number(did)], &[], &[]);
    }
}

/// The number that an answer is noted by.
fn did_number(did: Did) -> u64
    ensures { did_of result ≡ did }
{
    match did {
        Did::Done => DONE,
        Did::Failed => FAILED,
    }
}

/// Notes what a poll is about to be noted with.
fn note_list(notes: &mut Record, ready: &[Ready])
    ensures { noted_in notes.new.notes ≡ with_list ready.now (noted_in notes.old.notes) }
{
    for item in ready {
        match *item {
            Ready::Opened(socket) => notes.note(&[LISTED_OPENED, DONE, socket as u64], &[], &[]),
            Ready::Socket(socket) => notes.note(&[LISTED_SOCKET, DONE, socket as u64], &[], &[]),
        }
    }
}
