//! The sockets of a station in memory, and the pieces that are brought on them.

ghost use Rattle.std.specs.Prelude.{true, IsNone, IfNone, IfSome, ◌↔◌, vec_capacity, option_to_list, ℕ, ◌==◌, ◌≡◌, ◌^◌, ◌<◌, ◌≤◌, ◌-◌, ◌+◌, ◌++◌, ◌∷◌, [], nat_lt, if◌then◌else◌, IfOk, IsTrue, MatchOption, map, length, drop, take, min, slice_set};
ghost use Rattle.socket_station.specs.Standings.{AreNew, opens};
ghost use Rattle.socket_station.specs.Withins.{TakesWithin, GivesWithin};
ghost use Rattle.memory_station.specs.Answers.{IsLimit, TakesFront, IsGiven, IsFreshDial, is_dialled, dial_answer, dial_table, read_answer, read_table, write_answer, write_by, write_mark, write_table};
ghost use Rattle.memory_station.specs.HeldRows.{new_table, row_in, held_at, marked, taken, front_of, front_bytes, with_row, new_row, brought_on, brought_row, uncounted, IsSomeFront, listing, polled_table};

use crate::copies::copy_some;
use crate::listing::{list_ready, mark_polled, uncount};
use crate::pieces::{behind, front_piece};
use crate::rows::{Front, Mark, Piece, Row};
use bytes::Bytes;
use socket_station::{Dial, ReadyList, SocketId, SocketRead, SocketWrite, Standing};
use std::alloc::{AllocError, Global};
use std::marker::Model;

/// How many sockets a harness may bring.
pub(crate) const MOST_BROUGHT: usize = 512;

/// How many pieces a harness may bring.
pub(crate) const MOST_PIECES: usize = 65_536;

/// The sockets by number, and all pieces in the order in which they came.
#[derive(Drop)]
pub(crate) struct Table {
    rows: Vec<Row>,
    pieces: Vec<Piece>,
    brought: usize,
    row_room: usize,
}

impl Model for Table {
    ghost use Rattle.std.specs.Prelude.{map, length};
    ghost use Rattle.memory_station.specs.HeldRows.{HeldTable};
    ghost use Rattle.memory_station.specs.Rows.{held_row, IsSound};

    ghost Value = { HeldTable };

    ghost view = { λ b. record { rows = map (held_row b.pieces.items) b.rows.items; pieces = length b.pieces.items; brought = b.brought; row_room = b.row_room } };

    ghost invariant = { λ b. IsSound b };
}

impl Table {
    /// Takes room for so many sockets beside those that are brought, and for all pieces.
    pub(crate) fn new(alloc: Global, dials: usize) -> Result<Table, AllocError>
        requires few { dials < 2 ^ 32 - 512 }
        ensures { IfOk result (λ b. b ≡ new_table (dials + 512)) }
    {
        Ok(Table {
            rows: Vec::with_capacity(alloc, dials + MOST_BROUGHT)?,
            pieces: Vec::with_capacity(alloc, MOST_PIECES)?,
            brought: 0,
            row_room: dials + MOST_BROUGHT,
        })
    }

    /// A socket with the next number.
    pub(crate) fn add(&mut self, standing: Standing) -> SocketId
        requires { 0 < self.old.row_room }
        ensures number { result ≡ length self.old.rows }
        ensures rows { (n : ℕ) → row_in self.new.rows n ≡ (if result == n then new_row result standing else row_in self.old.rows n) }
        ensures fresh { row_in self.old.rows result ≡ new_row result Standing.Fresh }
        ensures after { self.new ≡ with_row (new_row result standing) self.old }
    {
        let number = self.rows.len() as u32;
        let row = Row {
            number,
            standing,
            from: self.pieces.len(),
            at: 0,
            is_finished: false,
            seems_ready: false,
            is_refused: false,
            is_even: false,
        };
        self.rows.push(row).unwrap();
        self.row_room -= 1;
        number
    }

    /// A new socket of the harness, unless 512 were brought.
    pub(crate) fn bring_socket(&mut self) -> Option<SocketId>
        requires few { self.old.brought ≤ 512 }
        requires room { self.old.brought < 512 → 0 < self.old.row_room }
        ensures full { IsNone result ↔ (512 ≤ self.old.brought) }
        ensures none { IfNone result (self.new ≡ self.old) }
        ensures some { IfSome result (λ s. self.new ≡ brought_row s self.old) }
        ensures next { IfSome result (λ s. s ≡ length self.old.rows) }
    {
        if self.brought >= MOST_BROUGHT {
            return None;
        }
        let number = self.add(Standing::Fresh);
        self.brought += 1;
        Some(number)
    }

    /// The numbers of the writes on each socket are counted from here on.
    pub(crate) fn count_writes(&mut self)
        ensures { self.new ≡ record self.old { rows = map uncounted self.old.rows } }
    {
        uncount(&mut self.rows);
    }

    /// Whether there is such a socket.
    pub(crate) fn is_known(&self, socket: SocketId) -> bool
        ensures { IsTrue result ↔ (socket < length self.now.rows) }
    {
        (socket as usize) < self.rows.len()
    }

    /// How a socket stands.
    pub(crate) fn standing(&self, socket: SocketId) -> Standing
        ensures { result ≡ (row_in self.now.rows socket).standing }
    {
        let index = socket as usize;
        if index < self.rows.len() {
            self.rows[index].standing
        } else {
            Standing::Fresh
        }
    }

    /// Whether the number of the next write on a socket is even.
    pub(crate) fn is_even(&self, socket: SocketId) -> bool
        ensures { result ≡ (row_in self.now.rows socket).is_even }
    {
        let index = socket as usize;
        if index < self.rows.len() {
            self.rows[index].is_even
        } else {
            false
        }
    }

    /// Marks a socket.
    pub(crate) fn mark(&mut self, socket: SocketId, mark: Mark)
        ensures { self.new ≡ record self.old { rows = held_at socket (marked mark) self.old.rows } }
    {
        let index = socket as usize;
        if index < self.rows.len() {
            let row = self.rows[index];
            self.rows[index] = row.marked(mark);
        }
    }

    /// What stands at the front of a socket.
    pub(crate) fn front(&self, socket: SocketId) -> Front
        ensures front { result ≡ front_of (row_in self.now.rows socket) }
        ensures some { IsSomeFront result }
    {
        let index = socket as usize;
        if index >= self.rows.len() {
            return Front::NotYet;
        }
        let row = self.rows[index];
        match front_piece(&self.pieces, row.number, row.from) {
            Some(place) => Front::Bytes(self.pieces[place].bytes.len() - row.at),
            None => {
                if row.is_finished {
                    Front::Ended
                } else {
                    Front::NotYet
                }
            }
        }
    }

    /// Takes as many of the bytes at the front of a socket as fit.
    pub(crate) fn take(&mut self, socket: SocketId, buf: &mut [u8]) -> usize
        ensures count { result ≡ min (length buf.old) (length (front_bytes (row_in self.old.rows socket))) }
        ensures bytes { take result buf.new ≡ take result (front_bytes (row_in self.old.rows socket)) }
        ensures after { self.new ≡ record self.old { rows = held_at socket (taken result) self.old.rows } }
    {
        let index = socket as usize;
        if index >= self.rows.len() {
            return 0;
        }
        let row = self.rows[index];
        match front_piece(&self.pieces, row.number, row.from) {
            None => 0,
            Some(place) => {
                let piece = self.pieces[place].bytes.as_slice();
                let left = piece.len() - row.at;
                let count = copy_some(piece, row.at, buf);
                self.rows[index] = behind(row, place, count, left);
                count
            }
        }
    }

    /// Adds a piece to be read on a socket.
    pub(crate) fn bring(&mut self, socket: SocketId, piece: Bytes) -> Result<(), Bytes>
        requires { 0 < length piece }
        ensures full { result ≡ (if nat_lt self.old.pieces 65536 then Ok tt else Err piece) }
        ensures after { self.new ≡ (if nat_lt self.old.pieces 65536 then brought_on socket piece self.old else self.old) }
    {
        if self.pieces.len() >= MOST_PIECES {
            return Err(piece);
        }
        self.pieces
            .push(Piece {
                socket,
                bytes: piece,
            })
            .unwrap();
        Ok(())
    }

    /// Opens a socket, where the call goes on. Else it fails.
    pub(crate) fn dial(&mut self, goes: bool) -> Dial
        requires { goes ≡ true → 0 < self.old.row_room }
        ensures answer { result ≡ dial_answer goes self.old }
        ensures after { self.new ≡ dial_table result self.old }
        ensures fresh { IsFreshDial result self.old }
        ensures moves { (n : ℕ) → (row_in self.new.rows n).standing ≡ (if is_dialled result n then Standing.Open else (row_in self.old.rows n).standing) }
    {
        if goes {
            Dial::Socket(self.add(Standing::Open))
        } else {
            Dial::Failed
        }
    }

    /// Reads a socket, where the call goes on: takes as many of the bytes at its front as fit, or answers that nothing is there now,
    /// or nothing any more. Else it fails.
    pub(crate) fn read(&mut self, socket: SocketId, goes: bool, buf: &mut [u8]) -> SocketRead
        requires { 0 < length buf.old }
        ensures answer { result ≡ read_answer goes (row_in self.old.rows socket) (length buf.old) }
        ensures within { TakesWithin result buf.new }
        ensures bytes { TakesFront result buf.new (row_in self.old.rows socket) }
        ensures after { self.new ≡ read_table socket result self.old }
    {
        if !goes {
            self.mark(socket, Mark::Closed);
            return SocketRead::Failed;
        }
        match self.front(socket) {
            Front::Bytes(_) => SocketRead::Took(self.take(socket, buf)),
            Front::NotYet => SocketRead::NotYet,
            Front::Ended => {
                self.mark(socket, Mark::Closed);
                SocketRead::Ended
            }
        }
    }

    /// Writes so many bytes on a socket, where the call goes on: gives as many of them as the limit allows, or answers that nothing can
    /// be given now. Else it fails.
    pub(crate) fn write(
        &mut self,
        socket: SocketId,
        goes: bool,
        most: Option<usize>,
        len: usize,
    ) -> SocketWrite
        requires some { 0 < len }
        requires limit { IsLimit most }
        ensures answer { result ≡ write_answer goes most (row_in self.old.rows socket) len }
        ensures within { IsGiven result len }
        ensures after { self.new ≡ write_table most socket result self.old }
    {
        let write = write_answer(goes, most, self.is_even(socket), len);
        self.mark(socket, mark_of(write, most));
        write
    }

    /// Lists the sockets that are new or may be ready, and opens those that it lists as new.
    fn list(&mut self, ready: &mut ReadyList)
        requires { ready.old ≡ [] }
        ensures ready { ready.new ≡ listing self.old.rows }
        ensures after { self.new ≡ polled_table ready.new self.old }
        ensures fresh { AreNew (λ n. (row_in self.old.rows n).standing) ready.new }
        ensures moves { (n : ℕ) → (row_in self.new.rows n).standing ≡ (if opens ready.new n then Standing.Open else (row_in self.old.rows n).standing) }
    {
        list_ready(&self.rows, &self.pieces, ready);
        mark_polled(&mut self.rows, ready.as_slice());
    }

    /// Lists the sockets that are new or may be ready, and opens those that it lists as new, where the call goes on.
    pub(crate) fn poll(&mut self, goes: bool, ready: &mut ReadyList)
        requires { ready.old ≡ [] }
        ensures ready { ready.new ≡ (if goes then listing self.old.rows else []) }
        ensures after { self.new ≡ (if goes then polled_table ready.new self.old else self.old) }
        ensures fresh { AreNew (λ n. (row_in self.old.rows n).standing) ready.new }
        ensures moves { (n : ℕ) → (row_in self.new.rows n).standing ≡ (if opens ready.new n then Standing.Open else (row_in self.old.rows n).standing) }
    {
        if goes {
            self.list(ready);
        }
    }
}

/// What a write of so many bytes answers.
fn write_answer(goes: bool, most: Option<usize>, is_even: bool, len: usize) -> SocketWrite
    requires some { 0 < len }
    requires limit { IsLimit most }
    ensures answer { result ≡ write_by goes most is_even len }
    ensures within { IsGiven result len }
{
    if !goes {
        return SocketWrite::Failed;
    }
    match most {
        None => SocketWrite::Gave(len),
        Some(most) => {
            if is_even {
                SocketWrite::NotYet
            } else {
                SocketWrite::Gave(len.min(most))
            }
        }
    }
}

/// What becomes of a socket by a write that answered this.
fn mark_of(write: SocketWrite, most: Option<usize>) -> Mark
    ensures { result ≡ write_mark write most }
{
    match write {
        SocketWrite::Failed => Mark::Closed,
        SocketWrite::NotYet => Mark::Refused,
        SocketWrite::Gave(_) => {
            if most.is_some() {
                Mark::GaveOdd
            } else {
                Mark::Gave
            }
        }
    }
}
