//! What a poll lists, and what it leaves.

ghost use Rattle.std.specs.Prelude.{◌≡◌, ◌++◌, [], map, option_to_list, take, vec_capacity};
ghost use Rattle.socket_station.specs.Standings.{opens};
ghost use Rattle.memory_station.specs.HeldRows.{ready_in, listing};
ghost use Rattle.memory_station.specs.Rows.{held_row, polled_row, row_uncounted};

use crate::pieces::front_piece;
use crate::rows::{Piece, Row};
use socket_station::{Ready, ReadyList, SocketId, Standing};

/// What a poll says of a row.
pub(crate) fn ready_of(pieces: &Vec<Piece>, row: &Row) -> Option<Ready>
    ensures { result ≡ ready_in (held_row pieces.now.items row.now) }
{
    match row.standing {
        Standing::Fresh => Some(Ready::Opened(row.number)),
        Standing::Closed => None,
        Standing::Open => {
            let has_piece = front_piece(pieces, row.number, row.from).is_some();
            if has_piece || row.is_finished || row.seems_ready || row.is_refused {
                Some(Ready::Socket(row.number))
            } else {
                None
            }
        }
    }
}

/// Adds an item, if there is one and the list has room for it.
pub(crate) fn push_some(ready: &mut ReadyList, item: Option<Ready>)
    ensures { ready.new ≡ take 64 (ready.old ++ option_to_list item) }
{
    let len = ready.as_slice().len();
    match item {
        None => {}
        Some(item) => {
            if len < 64 {
                ready.push(item);
            }
        }
    }
}

/// Lists the sockets that are new or may be ready.
pub(crate) fn list_ready(rows: &Vec<Row>, pieces: &Vec<Piece>, ready: &mut ReadyList)
    requires { ready.old ≡ [] }
    ensures { ready.new ≡ listing (map (held_row pieces.now.items) rows.now.items) }
{
    for row in rows.as_slice() {
        push_some(ready, ready_of(pieces, row));
    }
}

/// Whether a list opens a socket.
pub(crate) fn opens_in(ready: &[Ready], number: SocketId) -> bool
    ensures { result ≡ opens ready.now number }
{
    for item in ready {
        if let Ready::Opened(socket) = *item
            && socket == number
        {
            return true;
        }
    }
    false
}

/// A poll with that list goes into the row.
pub(crate) fn poll_row(row: &mut Row, ready: &[Ready])
    ensures { row.new ≡ polled_row ready.now row.old }
{
    if opens_in(ready, row.number) {
        row.standing = Standing::Open;
    }
    row.seems_ready = false;
}

/// Opens the sockets that a list opens, and no socket seems ready any more.
pub(crate) fn mark_polled(rows: &mut Vec<Row>, ready: &[Ready])
    ensures items { rows.new.items ≡ map (polled_row ready.now) rows.old.items }
    ensures capacity { vec_capacity rows.new ≡ vec_capacity rows.old }
{
    for row in rows.iter_mut() {
        poll_row(row, ready);
    }
}

/// No write on the socket was counted.
pub(crate) fn uncount_row(row: &mut Row)
    ensures { row.new ≡ row_uncounted row.old }
{
    row.is_even = false;
}

/// No write on any socket was counted.
pub(crate) fn uncount(rows: &mut Vec<Row>)
    ensures items { rows.new.items ≡ map row_uncounted rows.old.items }
    ensures capacity { vec_capacity rows.new ≡ vec_capacity rows.old }
{
    for row in rows.iter_mut() {
        uncount_row(row);
    }
}
