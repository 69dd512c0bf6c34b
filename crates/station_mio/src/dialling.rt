//! Sockets that are due go on: they are dialled, or given up.

ghost use Rattle.std.specs.Prelude.{◌≡◌, ◌<◌, ℕ, length};
ghost use Rattle.station_mio.specs.Rows.{stand_of};
ghost use Rattle.station_mio.specs.Dialling.{Begins, GoesOn, GoesOnAt, GoesOnAll};
ghost use Rattle.station_mio.specs.Waiting.{patience_for, patience_of};

use crate::pace::{PATIENCE, PAUSE, after};
use crate::rows::{Row, Rows};
use crate::streams::connect;
use machine_host::{Host, Numbered};
use socket_station::{Addr, SocketId};
use std::mem;

/// A socket of this number is dialled now: it has some time to be answered, or it is lost.
fn begin<H: Host>(
    host: &mut H,
    selector: &mut H::Selector,
    number: SocketId,
    addr: Addr,
    now: u64,
) -> Row<H::Stream>
    ensures { Begins now number addr (stand_of H.Stream.number result) (H.history host.old) (H.history host.new) }
{
    match connect(host, selector, number, addr) {
        Some(stream) => Row::Dialled(stream, after(now, PATIENCE)),
        None => Row::Lost(number),
    }
}

/// A socket goes on: it is dialled where that is due, or given up where it had no answer in time.
fn go_on<H: Host>(
    host: &mut H,
    selector: &mut H::Selector,
    row: Row<H::Stream>,
    now: u64,
) -> Row<H::Stream>
    ensures { GoesOn now (stand_of H.Stream.number row) (stand_of H.Stream.number result) (H.history host.old) (H.history host.new) }
{
    match row {
        Row::Due(number, addr, due) => {
            if due <= now {
                begin(host, selector, number, addr, now)
            } else {
                Row::Due(number, addr, due)
            }
        }
        Row::Dialled(stream, due) => {
            if due <= now {
                let number = stream.number();
                host.close(stream);
                Row::Lost(number)
            } else {
                Row::Dialled(stream, due)
            }
        }
        Row::Up(stream) => Row::Up(stream),
        Row::Lost(number) => Row::Lost(number),
    }
}

/// The socket of a row goes on.
fn go_on_in<H: Host>(host: &mut H, selector: &mut H::Selector, row: &mut Row<H::Stream>, now: u64)
    ensures { GoesOn now (stand_of H.Stream.number row.old) (stand_of H.Stream.number row.new) (H.history host.old) (H.history host.new) }
{
    let old = mem::replace(row, Row::Lost(0));
    *row = go_on(host, selector, old, now);
}

/// The socket at this place goes on.
fn go_on_at<H: Host>(
    host: &mut H,
    selector: &mut H::Selector,
    rows: &mut Rows<H::Stream>,
    place: usize,
    now: u64,
)
    requires { place < length rows.old }
    ensures { GoesOnAt now place rows.old rows.new (H.history host.old) (H.history host.new) }
{
    go_on_in(host, selector, &mut rows.rows[place], now);
}

/// All sockets go on, one after the other.
pub(crate) fn go_on_all<H: Host>(
    host: &mut H,
    selector: &mut H::Selector,
    rows: &mut Rows<H::Stream>,
    now: u64,
)
    ensures { GoesOnAll now rows.old rows.new (H.history host.old) (H.history host.new) }
{
    for place in 0..rows.len() {
        go_on_at(host, selector, rows, place, now);
    }
}

/// How long a poll may wait for the sake of this socket.
fn patience_for<S>(row: &Row<S>, now: u64) -> u64
    ensures { (number : S → ℕ) → result ≡ patience_for now (stand_of number row.now) }
{
    match row {
        Row::Due(_, _, due) => due.saturating_sub(now),
        Row::Dialled(_, due) => due.saturating_sub(now),
        Row::Up(_) => PAUSE,
        Row::Lost(_) => 0,
    }
}

/// How long a poll may wait for the sake of all of them: a pause at most.
pub(crate) fn patience_of<S: Numbered + Drop>(rows: &Rows<S>, now: u64) -> u64
    ensures { result ≡ patience_of now rows.now }
{
    let mut patience = PAUSE;
    for row in rows.rows.as_slice() {
        patience = patience.min(patience_for(row, now));
    }
    patience
}
