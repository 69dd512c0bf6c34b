//! The open sockets of a station, by their numbers.

ghost use Rattle.std.specs.Prelude.{◌≡◌, ◌<◌, ◌+◌, ◌++◌, ◌∷◌, [], IfSome, IfOk, Some, is_some, length, slice_get, take, drop};
ghost use Rattle.station_mio.specs.Rows.{IsPlaceOf, stand_of, stands_of, stand_in, number_of, closings_of, raised, up};

use machine_host::{Host, Numbered};
use socket_station::{Addr, SocketId};
use std::alloc::{AllocError, Global};
use std::marker::Model;
use std::mem;

/// How many sockets may be open at once: a loop has at most 256 that were accepted, one dialled for
/// each player, and those of one list.
pub const MOST_SOCKETS: usize = 512;

/// A socket, by how it stands to the machine.
#[derive(Drop)]
pub(crate) enum Row<S> {
    /// It is to be dialled, under this number, at that time.
    Due(SocketId, Addr, u64),
    /// It was dialled, and the address has until that time to answer.
    Dialled(S, u64),
    /// It stands.
    Up(S),
    /// It is over, which the next read or write under its number tells.
    Lost(SocketId),
}

impl<S: Numbered> Row<S> {
    /// The socket's number.
    pub(crate) fn number(&self) -> SocketId
        ensures { result ≡ number_of (stand_of S.number self.now) }
    {
        match self {
            Row::Due(number, _, _) | Row::Lost(number) => *number,
            Row::Dialled(stream, _) | Row::Up(stream) => stream.number(),
        }
    }
}

/// The place of the row of this number, if there is one.
pub(crate) fn place_of<S: Numbered>(rows: &[Row<S>], number: SocketId) -> Option<usize>
    ensures found { IsPlaceOf number (stands_of S.number rows.now) result }
    ensures inside { IfSome result (λ place. place < length rows.now) }
{
    for place in 0..rows.len() {
        if rows[place].number() == number {
            return Some(place);
        }
    }
    None
}

/// Closes what a row has.
pub(crate) fn close<H: Host>(host: &mut H, row: Row<H::Stream>)
    ensures { H.history host.new ≡ H.history host.old ++ closings_of (stand_of H.Stream.number row) }
{
    match row {
        Row::Dialled(stream, _) | Row::Up(stream) => host.close(stream),
        Row::Due(_, _, _) | Row::Lost(_) => {}
    }
}

/// A socket that is ready stands.
fn raise<S: Numbered + Drop>(row: &mut Row<S>)
    ensures { stand_of S.number row.new ≡ up (stand_of S.number row.old) }
{
    *row = match mem::replace(row, Row::Lost(0)) {
        Row::Dialled(stream, _) => Row::Up(stream),
        row => row,
    };
}

/// At most [`MOST_SOCKETS`] sockets, the oldest first. It is seen as how each of them stands.
#[derive(Drop)]
pub(crate) struct Rows<S: Numbered> {
    pub(crate) rows: Vec<Row<S>>,
}

impl<S: Numbered> Model for Rows<S> {
    ghost use Rattle.std.specs.Prelude.{List, ◌≤◌, vec_capacity};
    ghost use Rattle.station_mio.specs.Rows.{Stand, stands_of};
    ghost use Rattle.station_mio.specs.declared.rows.TheConstants.{MOST_SOCKETS};

    ghost Value = { List Stand };

    ghost view = { λ r. stands_of S.number r.rows.items };

    ghost invariant = { λ r. MOST_SOCKETS ≤ vec_capacity r.rows };
}

impl<S: Numbered + Drop> Rows<S> {
    /// Takes the room of all of them, and has none. An error comes where memory is wanting.
    pub(crate) fn new(alloc: Global) -> Result<Rows<S>, AllocError>
        ensures { IfOk result (λ rows. rows ≡ []) }
    {
        Ok(Rows {
            rows: Vec::with_capacity(alloc, MOST_SOCKETS)?,
        })
    }

    /// How many there are.
    pub(crate) fn len(&self) -> usize
        ensures { result ≡ length self.now }
    {
        self.rows.len()
    }

    /// Adds one.
    pub(crate) fn push(&mut self, row: Row<S>)
        requires { length self.old < MOST_SOCKETS }
        ensures { self.new ≡ self.old ++ stand_of S.number row ∷ [] }
    {
        self.rows.push_reserved(row);
    }

    /// The place of the one of this number, if there is one.
    pub(crate) fn place(&self, number: SocketId) -> Option<usize>
        ensures found { IsPlaceOf number self.now result }
        ensures inside { IfSome result (λ place. place < length self.now) }
    {
        place_of(self.rows.as_slice(), number)
    }

    /// Takes out the one at this place.
    pub(crate) fn remove(&mut self, place: usize) -> Row<S>
        requires { place < length self.old }
        ensures gone { slice_get self.old place ≡ Some (stand_of S.number result) }
        ensures others { self.new ≡ take place self.old ++ drop (place + 1) self.old }
    {
        self.rows.remove(place)
    }

    /// The one of this number is ready, and so it stands. It says whether there is one.
    pub(crate) fn raise(&mut self, number: SocketId) -> bool
        ensures stands { self.new ≡ raised number self.old }
        ensures found { result ≡ is_some (stand_in number self.old) }
    {
        match self.place(number) {
            None => false,
            Some(place) => {
                raise(&mut self.rows[place]);
                true
            }
        }
    }
}
