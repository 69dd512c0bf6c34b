//! The history of the station, and what is read off it again.
//!
//! The history itself is seen by proofs alone. What the harness asks for stands in memory beside it: the counts, the last dials, the
//! bytes given, the log and its syncs.

ghost use Rattle.std.specs.Prelude.{◌≡◌, ◌<◌, ◌≤◌, ◌+◌, ◌++◌, ◌∷◌, IfOk, length, take, drop, min, unwrap_or, [], None, Some};
ghost use Rattle.socket_station.specs.Items.{listen_item, log_item, dial_item, poll_item, read_item, write_item, Shut, keep_item, sync_item};
ghost use Rattle.socket_station.specs.Moved.{given_in, kept_in, synced_in};
ghost use Rattle.socket_station.specs.Withins.{GivesWithin};
ghost use Rattle.history_book.specs.Books.{new_book, with_item, cut_off, items_told, taken_by, given_by, dialled_by};
ghost use Rattle.history_book.specs.Dials.{dials_in};
ghost use Rattle.history_book.specs.Rooms.{HasRoomFor, fits};
ghost use Rattle.history_book.specs.Stores.{is_begun};
ghost use Rattle.history_book.specs.Tallies.{calls_in, polls_in, long, short};

use crate::dials::{DialTable, Dials};
use crate::journal::Journal;
use crate::room::Room;
use crate::store::{Store, What};
use crate::tally::Tally;
use definitions::PlayerId;
use socket_station::{Addr, Dial, Did, Ready, SocketId, SocketRead, SocketWrite, StationNotes};
use std::alloc::{AllocError, Global};
use std::marker::Model;

/// The history, and the room that is left for it.
#[derive(Drop)]
pub struct Book {
    notes: StationNotes,
    room: Room,
    tally: Tally,
    dials: DialTable,
    store: Store,
    journal: Journal,
}

impl Model for Book {
    ghost use Rattle.history_book.specs.HeldBooks.{HeldBook};
    ghost use Rattle.history_book.specs.Insides.{IsBook};

    ghost Value = { HeldBook };

    ghost view = { λ b. record { history = b.notes; room = b.room } };

    ghost invariant = { λ b. IsBook b };
}

impl Book {
    /// No call was made. It takes room for so many items and bytes.
    pub fn new(alloc: Global, items: usize, bytes: usize) -> Result<Book, AllocError>
        ensures { IfOk result (λ b. b ≡ new_book items bytes) }
    {
        Ok(Book {
            notes: StationNotes::new(),
            room: Room {
                items,
                bytes,
                spent: None,
            },
            tally: Tally::new(),
            dials: DialTable::new(alloc)?,
            store: Store::new(alloc, items, bytes)?,
            journal: Journal::new(alloc, items, bytes)?,
        })
    }

    /// Whether one more item of so many bytes has room.
    pub fn fits(&self, bytes: usize) -> bool
        ensures { result ≡ fits self.now.room bytes }
    {
        let _notes = &self.notes;
        self.room.fits(bytes)
    }

    /// A call found too little room.
    pub fn cut(&mut self)
        ensures { self.new ≡ cut_off self.old }
    {
        self.room.cut(self.tally.told);
    }

    /// How many items were told before a call first found too little room, or all of them.
    pub fn items(&self) -> u64
        ensures { result ≡ items_told self.now }
    {
        self.room.spent.unwrap_or(self.tally.told)
    }

    /// How many calls were answered.
    pub fn calls(&self) -> u64
        ensures { result ≡ long (calls_in self.now.history) }
    {
        let _notes = &self.notes;
        self.tally.calls
    }

    /// How many polls were answered.
    pub fn polls(&self) -> u32
        ensures { result ≡ short (polls_in self.now.history) }
    {
        let _notes = &self.notes;
        self.tally.polls
    }

    /// The dials for a player.
    pub fn dials(&self, player: PlayerId) -> Dials
        ensures { result ≡ dials_in player self.now.history }
    {
        let _notes = &self.notes;
        self.dials.of(player)
    }

    /// Whether a log of that name was begun.
    pub fn has_log(&self, name: &[u8]) -> bool
        ensures { result ≡ is_begun name.now self.now.history }
    {
        let _notes = &self.notes;
        self.store.has_log(name)
    }

    /// Copies the bytes given on a socket from number `at` on, as many as there are and fit.
    pub fn given(&self, socket: SocketId, at: usize, out: &mut [u8]) -> usize
        ensures count { result ≡ min (length out.old) (length (drop at (given_in socket self.now.history))) }
        ensures bytes { out.new ≡ take result (drop at (given_in socket self.now.history)) ++ drop result out.old }
    {
        let _notes = &self.notes;
        self.store.given(socket, at, out)
    }

    /// The bytes kept.
    pub fn kept(&self) -> &[u8]
        ensures { result.now ≡ kept_in self.now.history }
    {
        let _notes = &self.notes;
        self.journal.kept()
    }

    /// The bytes kept up to the last sync among the first so many items.
    pub fn synced(&self, items: u32) -> &[u8]
        ensures { result.now ≡ synced_in (take items self.now.history) }
    {
        let _notes = &self.notes;
        self.journal.synced(items as u64)
    }
}

impl Book {
    /// A `listen` answered this.
    pub fn listen(&mut self, did: Did, addr: Addr)
        requires { HasRoomFor self.old.room 0 }
        ensures { self.new ≡ with_item (listen_item did addr) 0 self.old }
    {
        self.notes.listen(did, addr);
        self.tally.call();
        self.room.spend(0);
    }

    /// A `log_to` answered this.
    pub fn log_to(&mut self, did: Did, name: &[u8])
        requires room { HasRoomFor self.old.room (length name.now) }
        requires open { did ≡ Did.Done → self.old.room.spent ≡ None }
        ensures { self.new ≡ with_item (log_item did name.now) (length name.now) self.old }
    {
        self.notes.log_to(did, name);
        self.tally.call();
        self.room.spend(name.len());
        match did {
            Did::Done => self.store.push(What::LogName, name),
            Did::Failed => {}
        }
    }

    /// A `dial` answered this.
    pub fn dial(&mut self, dial: Dial, player: PlayerId, addr: Addr)
        requires { HasRoomFor self.old.room 0 }
        ensures { self.new ≡ with_item (dial_item dial player addr) 0 self.old }
    {
        self.notes.dial(dial, player, addr);
        self.tally.call();
        self.room.spend(0);
        self.dials.note(player, socket_of(dial));
    }

    /// A `poll` answered this, with that list.
    pub fn poll(&mut self, did: Did, ready: &[Ready])
        requires { HasRoomFor self.old.room 0 }
        ensures { self.new ≡ with_item (poll_item did ready.now) 0 self.old }
    {
        self.notes.poll(did, ready);
        self.tally.poll();
        self.room.spend(0);
    }

    /// A `read` answered this. What was taken stands at the front of the buffer.
    pub fn read(&mut self, socket: SocketId, read: SocketRead, buf: &[u8])
        requires { HasRoomFor self.old.room (taken_by read) }
        ensures { self.new ≡ with_item (read_item socket read buf.now) (taken_by read) self.old }
    {
        self.notes.read(socket, read, buf);
        self.tally.call();
        self.room.spend(taken_by(read));
    }

    /// A `write` answered this. What was given stands at the front of the bytes.
    pub fn write(&mut self, socket: SocketId, write: SocketWrite, bytes: &[u8])
        requires room { HasRoomFor self.old.room (given_by write) }
        requires within { GivesWithin write bytes.now }
        requires open { 0 < given_by write → self.old.room.spent ≡ None }
        ensures { self.new ≡ with_item (write_item socket write bytes.now) (given_by write) self.old }
    {
        self.notes.write(socket, write, bytes);
        self.tally.call();
        self.room.spend(given_by(write));
        match write {
            SocketWrite::Gave(count) => self.store.push(What::Given(socket), &bytes[..count]),
            SocketWrite::NotYet | SocketWrite::Failed => {}
        }
    }

    /// A socket was shut. That takes no room.
    pub fn shut(&mut self, socket: SocketId)
        ensures { self.new ≡ record self.old { history = self.old.history ++ Shut socket ∷ [] } }
    {
        self.notes.shut(socket);
        self.tally.shut();
    }

    /// A `keep` answered this.
    pub fn keep(&mut self, did: Did, bytes: &[u8])
        requires room { HasRoomFor self.old.room (length bytes.now) }
        requires open { did ≡ Did.Done → self.old.room.spent ≡ None }
        ensures { self.new ≡ with_item (keep_item did bytes.now) (length bytes.now) self.old }
    {
        self.notes.keep(did, bytes);
        self.tally.call();
        self.room.spend(bytes.len());
        match did {
            Did::Done => self.journal.keep(bytes),
            Did::Failed => {}
        }
    }

    /// A `sync` answered this.
    pub fn sync(&mut self, did: Did)
        requires room { HasRoomFor self.old.room 0 }
        requires open { did ≡ Did.Done → self.old.room.spent ≡ None }
        ensures { self.new ≡ with_item (sync_item did) 0 self.old }
    {
        self.notes.sync(did);
        self.tally.call();
        self.room.spend(0);
        match did {
            Did::Done => self.journal.sync(self.tally.told),
            Did::Failed => {}
        }
    }
}

/// The socket that a dial opened.
fn socket_of(dial: Dial) -> Option<SocketId>
    ensures { result ≡ dialled_by dial }
{
    match dial {
        Dial::Socket(socket) => Some(socket),
        Dial::Failed => None,
    }
}

/// How many bytes a read took.
fn taken_by(read: SocketRead) -> usize
    ensures { result ≡ taken_by read }
{
    match read {
        SocketRead::Took(count) => count,
        SocketRead::NotYet | SocketRead::Ended | SocketRead::Failed => 0,
    }
}

/// How many bytes a write gave.
fn given_by(write: SocketWrite) -> usize
    ensures { result ≡ given_by write }
{
    match write {
        SocketWrite::Gave(count) => count,
        SocketWrite::NotYet | SocketWrite::Failed => 0,
    }
}
