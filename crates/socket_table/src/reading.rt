//! Bytes come on a socket.

ghost use Rattle.std.specs.Prelude.{◌≡◌, ℕ, ◌≤◌, ◌<◌, ◌+◌, ◌^◌, [], ◌++◌, Some, None, length, slice_get};
ghost use Rattle.wire_frames.specs.Streams.{given_of};
ghost use Rattle.socket_lines.specs.Seats as S;
ghost use Rattle.socket_lines.specs.Lines as L;
ghost use Rattle.loop_rules.specs.Tables.{at_line, at_seat, room_on};
ghost use Rattle.loop_rules.specs.Hearing.{read_on, counted, took_on};
ghost use Rattle.socket_table.specs.declared.table.TheConstants.{MOST_TAKEN};
ghost use Rattle.socket_table.specs.Finding.{IsAt, IsSeatAt, IsNamedSeat};
ghost use Rattle.socket_table.specs.Hearers.{ArePlayers};
ghost use Rattle.socket_table.specs.Sound.{spent_of};

use crate::finding::seat_index;
use crate::frame_list::FrameList;
use crate::hears::Hears;
use crate::table::Table;
use definitions::PlayerId;
use socket_lines::{Line, Seat};
use socket_station::SocketId;
use wire_frames::{FedWhat, FrameReader};

/// Reads on in a stream with these bytes, and adds the frames that end in them to those of the list. It says whether one of them is bad.
fn feed_all(reader: &mut FrameReader, bytes: &[u8], frames: &mut FrameList) -> bool
    requires place { reader.old.place + length bytes.now < 2 ^ 64 }
    requires room { length frames.old + length bytes.now ≤ MOST_TAKEN }
    ensures frames { frames.new ≡ frames.old ++ (given_of reader.old bytes.now).frames }
    ensures reader { reader.new ≡ (given_of reader.old bytes.now).reader }
    ensures bad { result ≡ (given_of reader.old bytes.now).reader.bad }
    ensures place { reader.new.place ≤ reader.old.place + length bytes.now }
    ensures few { length frames.new ≤ length frames.old + length bytes.now }
{
    let mut rest = bytes;
    loop {
        let fed = reader.feed(rest);
        rest = &rest[fed.used..];
        match fed.what {
            FedWhat::More => return false,
            FedWhat::Bad(_) => return true,
            FedWhat::Whole(frame) => frames.push(frame),
        }
    }
}

/// Bytes came on the socket; before it has a name they are counted on it.
fn read_line(line: &mut Line, bytes: &[u8], frames: &mut FrameList) -> bool
    requires place { line.old.reader.place + length bytes.now < 2 ^ 64 }
    requires taken { line.old.taken + length bytes.now < 2 ^ 32 }
    requires empty { frames.old ≡ [] }
    requires few { length bytes.now ≤ MOST_TAKEN }
    ensures line { line.new ≡ read_on (length bytes.now) (given_of line.old.reader bytes.now) line.old }
    ensures frames { frames.new ≡ (given_of line.old.reader bytes.now).frames }
    ensures bad { result ≡ (given_of line.old.reader bytes.now).reader.bad }
    ensures place { line.new.reader.place ≤ line.old.reader.place + length bytes.now }
    ensures few { length frames.new ≤ length bytes.now }
{
    if line.name.is_none() {
        line.taken += bytes.len() as u32;
    }
    feed_all(&mut line.reader, bytes, frames)
}

impl Table {
    /// So many bytes of the player came.
    fn spend_seat(&mut self, seat: usize, player: PlayerId, count: u32)
        requires seat { IsSeatAt self.old.seats player (Some seat) }
        requires room { (c : Seat) → slice_get self.old.seats seat ≡ Some c → count ≤ S.room_of c }
        ensures { self.new ≡ at_seat player (S.spends count) self.old }
    {
        self.seats[seat].spend(count);
    }

    /// Bytes came on the socket. It says whether one of them is bad.
    fn read(&mut self, place: usize, socket: SocketId, bytes: &[u8], frames: &mut FrameList) -> bool
        requires at { IsAt self.old place socket }
        requires few { length bytes.now ≤ MOST_TAKEN }
        requires empty { frames.old ≡ [] }
        requires taken { (l : Line) → slice_get self.old.lines place ≡ Some l → l.name ≡ None → length bytes.now ≤ L.unnamed_room l }
        requires read { (l : Line) → (q : ℕ) → slice_get self.old.lines place ≡ Some l → l.name ≡ Some q → l.reader.place + length bytes.now ≤ l.taken + spent_of self.old.seats (Some q) }
        ensures table { (l : Line) → slice_get self.old.lines place ≡ Some l → self.new ≡ at_line socket (read_on (length bytes.now) (given_of l.reader bytes.now)) self.old }
        ensures frames { (l : Line) → slice_get self.old.lines place ≡ Some l → frames.new ≡ (given_of l.reader bytes.now).frames }
        ensures bad { (l : Line) → slice_get self.old.lines place ≡ Some l → result ≡ (given_of l.reader bytes.now).reader.bad }
        ensures few { length frames.new ≤ length bytes.now }
    {
        read_line(&mut self.lines[place], bytes, frames)
    }

    /// The player of the socket's name, if it has one, and the place of its seat. One without a seat has no room.
    fn named_seat(&self, place: usize) -> Option<(usize, PlayerId)>
        requires { place < length self.now.lines }
        ensures { (l : Line) → slice_get self.now.lines place ≡ Some l → IsNamedSeat self.now l.name result }
    {
        match self.lines[place].name {
            None => None,
            Some(player) => match seat_index(&self.seats, player) {
                None => None,
                Some(seat) => Some((seat, player)),
            },
        }
    }

    /// The bytes count for the player of the socket's name, if it has one.
    fn count(&mut self, place: usize, _socket: SocketId, count: u32)
        requires at { IsAt self.old place _socket }
        requires some { 0 < count }
        requires room { (l : Line) → slice_get self.old.lines place ≡ Some l → count ≤ room_on self.old l }
        ensures seats { (l : Line) → slice_get self.old.lines place ≡ Some l → self.new ≡ counted l.name count self.old }
        ensures read { (l : Line) → (q : ℕ) → slice_get self.old.lines place ≡ Some l → l.name ≡ Some q → l.reader.place + count ≤ l.taken + spent_of self.new.seats (Some q) }
    {
        let _ = &self.seats;
        match self.named_seat(place) {
            None => {}
            Some((seat, player)) => self.spend_seat(seat, player, count),
        }
    }

    /// Bytes came on the socket, no more than have room: their frames are heard, and those of turns wait.
    pub fn take<H: Hears>(
        &mut self,
        place: usize,
        socket: SocketId,
        bytes: &[u8],
        frames: &mut FrameList,
        hears: &H,
    )
        requires at { IsAt self.old place socket }
        requires some { 0 < length bytes.now }
        requires few { length bytes.now ≤ MOST_TAKEN }
        requires room { (l : Line) → slice_get self.old.lines place ≡ Some l → length bytes.now ≤ room_on self.old l }
        requires none { self.old.waiting ≡ [] }
        requires players { ArePlayers (H.players hears.now) self.old.seats }
        ensures { self.new ≡ took_on (H.hearer hears.now) socket bytes.now self.old }
    {
        let _ = &self.lines;
        frames.clear();
        self.count(place, socket, bytes.len() as u32);
        let bad = self.read(place, socket, bytes, frames);
        self.hear_all(place, socket, frames.as_slice(), hears);
        if bad {
            self.doom(place, socket);
        }
    }
}
