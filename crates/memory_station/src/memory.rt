//! The station in memory.

ghost use Rattle.std.specs.Prelude.{◌≡◌, ◌<◌, ◌≤◌, ◌+◌, ◌++◌, ◌∷◌, ◌&&◌, not, ◌↔◌, Some, None, [], true, IfOk, IfSome, IfNone, IsNone, IsTrue, length, take, drop, min, map, nat_lt, if◌then◌else◌};
ghost use Rattle.socket_station.specs.Items.{listen_item, log_item, dial_item, poll_item, read_item, write_item, Shut, keep_item, sync_item};
ghost use Rattle.socket_station.specs.Moved.{given_in, kept_in, synced_in};
ghost use Rattle.socket_station.specs.Standings.{standing_in, OpensNew};
ghost use Rattle.socket_station.specs.Withins.{TakesWithin, GivesWithin};
ghost use Rattle.memory_station.specs.Answers.{at_socket, did_by, dial_answer, dial_table, need_of, read_answer, read_table, TakesFront, write_answer, write_table, write_need, need_by};
ghost use Rattle.history_book.specs.Books.{with_item, items_told, taken_by, given_by};
ghost use Rattle.history_book.specs.Dials.{dials_in};
ghost use Rattle.memory_station.specs.HeldRows.{row_in, front_of, listing, polled_table, brought_on, brought_row, closed, finished, seeming, uncounted};
ghost use Rattle.memory_station.specs.HeldStations.{new_station, fails_next, goes, goes_on, begun};
ghost use Rattle.history_book.specs.Rooms.{HasRoomFor};
ghost use Rattle.history_book.specs.Stores.{is_begun};
ghost use Rattle.history_book.specs.Tallies.{calls_in, polls_in, short};

use crate::plan::CallPlan;
use crate::rows::{Front, Mark};
use crate::table::{MOST_BROUGHT, Table};
use bytes::Bytes;
use definitions::PlayerId;
use history_book::Book;
use socket_station::{
    Addr, Dial, Did, ReadyList, SocketId, SocketRead, SocketWrite, Standing, Station,
};
use std::alloc::{AllocError, Global};
use std::marker::Model;

/// How many items a station may have room for: its socket numbers have 32 bits.
const MOST_ITEMS: usize = 4_000_000_000;

/// A station whose sockets and pieces a harness brings. It tells its whole history. The calls are counted from 1, `shut` not counted.
#[derive(Drop)]
pub struct MemoryStation {
    book: Book,
    plan: CallPlan,
    table: Table,
    most: Option<usize>,
}

impl Model for MemoryStation {
    ghost use Rattle.memory_station.specs.HeldStations.{HeldStation};
    ghost use Rattle.memory_station.specs.Stations.{IsReady};

    ghost Value = { HeldStation };

    ghost view = { λ s. record { book = s.book; plan = s.plan; table = s.table; most = s.most } };

    ghost invariant = { λ s. IsReady s };
}

impl MemoryStation {
    /// Takes room for so many history items and bytes. `Shut` items take none of it. A call for whose item the rest doesn't suffice fails,
    /// and so does each later one. It is an error too where there are not enough socket numbers for so many items, some 4 billion.
    pub fn new(alloc: Global, events: u32, bytes: u32) -> Result<MemoryStation, AllocError>
        ensures { IfOk result (λ s. s ≡ new_station events bytes) }
    {
        let events = events as usize;
        let bytes = bytes as usize;
        if events > MOST_ITEMS {
            return Err(AllocError);
        }
        Ok(MemoryStation {
            book: Book::new(alloc, events, bytes)?,
            plan: CallPlan::new(alloc)?,
            table: Table::new(alloc, events)?,
            most: None,
        })
    }

    /// Makes the call of that number fail. At most 64 numbers are given.
    pub fn fail_call(&mut self, number: u32)
        requires { length self.old.plan.named < 64 }
        ensures { self.new ≡ record self.old { plan = record self.old.plan { named = self.old.plan.named ++ number ∷ [] } } }
    {
        self.plan.fail_call(number);
    }

    /// Makes each call from that number on fail.
    pub fn fail_from(&mut self, number: u32)
        ensures { self.new ≡ record self.old { plan = record self.old.plan { from = Some number } } }
    {
        self.plan.fail_from(number);
    }

    /// Brings a new socket, unless 512 were brought. It is open once a poll lists it.
    pub fn bring_socket(&mut self) -> Option<SocketId>
        ensures full { IsNone result ↔ (512 ≤ self.old.table.brought) }
        ensures none { IfNone result (self.new ≡ self.old) }
        ensures some { IfSome result (λ s. self.new ≡ record self.old { table = brought_row s self.old.table }) }
        ensures next { IfSome result (λ s. s ≡ length self.old.table.rows) }
    {
        self.table.bring_socket()
    }

    /// Adds a piece to be read on a socket that was brought or dialled, unless 65,536 pieces were brought in all: then it gives the
    /// piece back.
    pub fn bring(&mut self, socket: SocketId, piece: Bytes) -> Result<(), Bytes>
        requires some { 0 < length piece }
        requires known { socket < length self.old.table.rows }
        ensures full { result ≡ (if nat_lt self.old.table.pieces 65536 then Ok tt else Err piece) }
        ensures after { self.new ≡ record self.old { table = if nat_lt self.old.table.pieces 65536 then brought_on socket piece self.old.table else self.old.table } }
    {
        self.table.bring(socket, piece)
    }

    /// Says that a socket that was brought or dialled ends behind its pieces.
    pub fn finish(&mut self, socket: SocketId)
        requires { socket < length self.old.table.rows }
        ensures { self.new ≡ record self.old { table = at_socket socket finished self.old.table } }
    {
        self.table.mark(socket, Mark::Finished);
    }

    /// Makes a socket that was brought or dialled seem ready, until a poll is done.
    pub fn seem_ready(&mut self, socket: SocketId)
        requires { socket < length self.old.table.rows }
        ensures { self.new ≡ record self.old { table = at_socket socket seeming self.old.table } }
    {
        self.table.mark(socket, Mark::SeemsReady);
    }

    /// Limits each write from now on to so many bytes, and makes each second write on a socket from now on answer `NotYet`.
    pub fn most(&mut self, bytes: usize)
        requires { 0 < bytes }
        ensures { self.new ≡ record self.old { most = Some bytes; table = record self.old.table { rows = map uncounted self.old.table.rows } } }
    {
        self.most = Some(bytes);
        self.table.count_writes();
    }

    /// Copies the bytes given on that socket from number `at` on, as many as there are and fit, and answers their number. The rest of
    /// `out` stays.
    pub fn given(&self, socket: SocketId, at: usize, out: &mut [u8]) -> usize
        ensures count { result ≡ min (length out.old) (length (drop at (given_in socket self.now.book.history))) }
        ensures bytes { out.new ≡ take result (drop at (given_in socket self.now.book.history)) ++ drop result out.old }
    {
        self.book.given(socket, at, out)
    }

    /// The bytes kept.
    pub fn kept(&self) -> &[u8]
        ensures { result.now ≡ kept_in self.now.book.history }
    {
        self.book.kept()
    }

    /// The last socket that was dialled for that player.
    pub fn dialled(&self, player: PlayerId) -> Option<SocketId>
        ensures { result ≡ (dials_in player self.now.book.history).last }
    {
        self.book.dials(player).last
    }

    /// How many dials of that player were made, failed ones too. The count stays at its last value.
    pub fn dials(&self, player: PlayerId) -> u32
        ensures { result ≡ (dials_in player self.now.book.history).count }
    {
        self.book.dials(player).count
    }

    /// How many polls were made, failed ones too. The count stays at its last value.
    pub fn polls(&self) -> u32
        ensures { result ≡ short (polls_in self.now.book.history) }
    {
        self.book.polls()
    }

    /// How many calls were answered, `shut` not counted. The count stays at its last value.
    pub fn calls(&self) -> u32
        ensures { result ≡ short (calls_in self.now.book.history) }
    {
        self.book.calls().min(u32::MAX as u64) as u32
    }

    /// Whether a socket was brought or dialled.
    pub fn is_known(&self, socket: SocketId) -> bool
        ensures { IsTrue result ↔ (socket < length self.now.table.rows) }
    {
        self.table.is_known(socket)
    }

    /// Whether a socket is open.
    pub fn is_open(&self, socket: SocketId) -> bool
        ensures { IsTrue result ↔ (standing_in self.now.book.history socket ≡ Standing.Open) }
    {
        match self.table.standing(socket) {
            Standing::Open => true,
            Standing::Fresh | Standing::Closed => false,
        }
    }

    /// How many items the history has: up to the first call for whose item the room didn't suffice, if there was one. The count stays at
    /// its last value.
    pub fn items(&self) -> u32
        ensures { result ≡ short (items_told self.now.book) }
    {
        self.book.items().min(u32::MAX as u64) as u32
    }

    /// The log as a crash may leave it: the bytes kept up to the last sync among the first `items` items, and then `tail`.
    pub fn image(&self, alloc: Global, items: u32, tail: &[u8]) -> Result<Vec<u8>, AllocError>
        requires { items ≤ items_told self.now.book }
        ensures { IfOk result (λ image. image.items ≡ synced_in (take items self.now.book.history) ++ tail.now) }
    {
        let synced = self.book.synced(items);
        let mut image = Vec::with_capacity(alloc, synced.len())?;
        image.extend_from_slice(synced)?;
        image.extend_from_slice(tail)?;
        Ok(image)
    }
}

/// Begins a call that would tell an item of `need` bytes, or a failure of `said` bytes: says whether it goes on. One that is to fail
/// doesn't, nor one that finds no room for what it would tell, which cuts the history.
fn begin(plan: &CallPlan, book: &mut Book, said: usize, need: usize) -> bool
    ensures goes { result ≡ goes_on plan.now book.old need }
    ensures book { book.new ≡ begun plan.now said need book.old }
    ensures room { HasRoomFor book.new.room (if result then need else said) }
    ensures open { result ≡ true → book.new.room.spent ≡ None }
{
    let fails = plan.fails(book.calls().saturating_add(1));
    let size = if fails { said } else { need };
    if !book.fits(size) {
        book.cut();
        return false;
    }
    !fails
}

/// What a call answers that only may fail.
fn did(goes: bool) -> Did
    ensures { result ≡ did_by goes }
{
    if goes { Did::Done } else { Did::Failed }
}

/// How many bytes a read takes.
fn read_need(front: Front, room: usize) -> usize
    ensures { result ≡ need_of front room }
{
    match front {
        Front::Bytes(left) => left.min(room),
        Front::NotYet | Front::Ended => 0,
    }
}

/// How many bytes a write gives.
fn write_need(most: Option<usize>, is_even: bool, len: usize) -> usize
    ensures { result ≡ need_by most is_even len }
{
    match most {
        None => len,
        Some(most) => { if is_even { 0 } else { len.min(most) } }
    }
}

impl Station for MemoryStation {
    ghost use Rattle.memory_station.specs.HeldStations.{HeldStation};

    ghost history = { λ s. s.book.history };

    fn listen(&mut self, addr: Addr) -> Did
        ensures after { self.new.book.history ≡ self.old.book.history ++ listen_item result addr ∷ [] }
        ensures answer { result ≡ did_by (goes self.old 0) }
        ensures state { self.new ≡ record self.old { book = with_item (listen_item result addr) 0 (begun self.old.plan 0 0 self.old.book) } }
    {
        let goes = begin(&self.plan, &mut self.book, 0, 0);
        let did = did(goes);
        self.book.listen(did, addr);
        did
    }

    /// A log of each name is begun once.
    fn log_to(&mut self, name: &[u8]) -> Did
        ensures after { self.new.book.history ≡ self.old.book.history ++ log_item result name.now ∷ [] }
        ensures answer { result ≡ did_by (goes self.old (length name.now) && not (is_begun name.now self.old.book.history)) }
        ensures state { self.new ≡ record self.old { book = with_item (log_item result name.now) (length name.now) (begun self.old.plan (length name.now) (length name.now) self.old.book) } }
    {
        let is_new = !self.book.has_log(name);
        let goes = begin(&self.plan, &mut self.book, name.len(), name.len());
        let did = did(goes && is_new);
        self.book.log_to(did, name);
        did
    }

    fn dial(&mut self, player: PlayerId, addr: Addr) -> Dial
        ensures after { self.new.book.history ≡ self.old.book.history ++ dial_item result player addr ∷ [] }
        ensures fresh { OpensNew self.old.book.history (dial_item result player addr) }
        ensures answer { result ≡ dial_answer (goes self.old 0) self.old.table }
        ensures state { self.new ≡ record self.old { book = with_item (dial_item result player addr) 0 (begun self.old.plan 0 0 self.old.book); table = dial_table result self.old.table } }
    {
        let goes = begin(&self.plan, &mut self.book, 0, 0);
        let dial = self.table.dial(goes);
        self.book.dial(dial, player, addr);
        dial
    }

    fn poll(&mut self, ready: &mut ReadyList) -> Did
        ensures after { self.new.book.history ≡ self.old.book.history ++ poll_item result ready.new ∷ [] }
        ensures fresh { OpensNew self.old.book.history (poll_item result ready.new) }
        ensures answer { result ≡ did_by (goes self.old 0) }
        ensures list { ready.new ≡ (if goes self.old 0 then listing self.old.table.rows else []) }
        ensures state { self.new ≡ record self.old { book = with_item (poll_item result ready.new) 0 (begun self.old.plan 0 0 self.old.book); table = if goes self.old 0 then polled_table ready.new self.old.table else self.old.table } }
    {
        ready.clear();
        let goes = begin(&self.plan, &mut self.book, 0, 0);
        self.table.poll(goes, ready);
        let did = did(goes);
        self.book.poll(did, ready.as_slice());
        did
    }

    fn read(&mut self, socket: SocketId, buf: &mut [u8]) -> SocketRead
        requires some { 0 < length buf.old }
        requires is_open { standing_in self.old.book.history socket ≡ Standing.Open }
        ensures within { TakesWithin result buf.new }
        ensures after { self.new.book.history ≡ self.old.book.history ++ read_item socket result buf.new ∷ [] }
        ensures answer { result ≡ read_answer (goes self.old (need_of (front_of (row_in self.old.table.rows socket)) (length buf.old))) (row_in self.old.table.rows socket) (length buf.old) }
        ensures bytes { TakesFront result buf.new (row_in self.old.table.rows socket) }
        ensures state { self.new ≡ record self.old { book = with_item (read_item socket result buf.new) (taken_by result) (begun self.old.plan 0 (need_of (front_of (row_in self.old.table.rows socket)) (length buf.old)) self.old.book); table = read_table socket result self.old.table } }
    {
        let need = read_need(self.table.front(socket), buf.len());
        let goes = begin(&self.plan, &mut self.book, 0, need);
        let read = self.table.read(socket, goes, buf);
        self.book.read(socket, read, buf);
        read
    }

    fn write(&mut self, socket: SocketId, bytes: &[u8]) -> SocketWrite
        requires some { 0 < length bytes.now }
        requires is_open { standing_in self.old.book.history socket ≡ Standing.Open }
        ensures within { GivesWithin result bytes.now }
        ensures after { self.new.book.history ≡ self.old.book.history ++ write_item socket result bytes.now ∷ [] }
        ensures answer { result ≡ write_answer (goes self.old (write_need self.old.most (row_in self.old.table.rows socket) (length bytes.now))) self.old.most (row_in self.old.table.rows socket) (length bytes.now) }
        ensures state { self.new ≡ record self.old { book = with_item (write_item socket result bytes.now) (given_by result) (begun self.old.plan 0 (write_need self.old.most (row_in self.old.table.rows socket) (length bytes.now)) self.old.book); table = write_table self.old.most socket result self.old.table } }
    {
        let need = write_need(self.most, self.table.is_even(socket), bytes.len());
        let goes = begin(&self.plan, &mut self.book, 0, need);
        let write = self.table.write(socket, goes, self.most, bytes.len());
        self.book.write(socket, write, bytes);
        write
    }

    fn shut(&mut self, socket: SocketId)
        requires { standing_in self.old.book.history socket ≡ Standing.Open }
        ensures after { self.new.book.history ≡ self.old.book.history ++ Shut socket ∷ [] }
        ensures state { self.new ≡ record self.old { book = record self.old.book { history = self.old.book.history ++ Shut socket ∷ [] }; table = at_socket socket closed self.old.table } }
    {
        self.table.mark(socket, Mark::Closed);
        self.book.shut(socket);
    }

    fn keep(&mut self, bytes: &[u8]) -> Did
        ensures after { self.new.book.history ≡ self.old.book.history ++ keep_item result bytes.now ∷ [] }
        ensures answer { result ≡ did_by (goes self.old (length bytes.now)) }
        ensures state { self.new ≡ record self.old { book = with_item (keep_item result bytes.now) (length bytes.now) (begun self.old.plan (length bytes.now) (length bytes.now) self.old.book) } }
    {
        let goes = begin(&self.plan, &mut self.book, bytes.len(), bytes.len());
        let did = did(goes);
        self.book.keep(did, bytes);
        did
    }

    fn sync(&mut self) -> Did
        ensures after { self.new.book.history ≡ self.old.book.history ++ sync_item result ∷ [] }
        ensures answer { result ≡ did_by (goes self.old 0) }
        ensures state { self.new ≡ record self.old { book = with_item (sync_item result) 0 (begun self.old.plan 0 0 self.old.book) } }
    {
        let goes = begin(&self.plan, &mut self.book, 0, 0);
        let did = did(goes);
        self.book.sync(did);
        did
    }
}
