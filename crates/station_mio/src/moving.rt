//! Bytes are taken and given on a socket by its number, and it is closed where it is over.

ghost use Rattle.std.specs.Prelude.{◌≡◌, ◌<◌, ◌++◌, Some, length, slice_get};
ghost use Rattle.socket_station.specs.Withins.{TakesWithin, GivesWithin};
ghost use Rattle.station_mio.specs.Rows.{Stand, stand_in, without, closings_at};
ghost use Rattle.station_mio.specs.Asking.{Reads, Writes, ReadsStand, WritesStand, after_read, after_write, is_read_over, is_write_over};

use crate::rows::{Rows, close};
use crate::streams::{read_row, write_row};
use machine_host::Host;
use socket_station::{SocketId, SocketRead, SocketWrite};

/// Whether a socket is over after such an answer.
fn is_read_over(read: SocketRead) -> bool
    ensures { result ≡ is_read_over read }
{
    matches!(read, SocketRead::Ended | SocketRead::Failed)
}

/// Whether a socket is over after such an answer.
fn is_write_over(write: SocketWrite) -> bool
    ensures { result ≡ is_write_over write }
{
    matches!(write, SocketWrite::Failed)
}

/// Closes the socket of this number, if there is one.
pub(crate) fn shut<H: Host>(host: &mut H, rows: &mut Rows<H::Stream>, number: SocketId)
    ensures asked { H.history host.new ≡ H.history host.old ++ closings_at (stand_in number rows.old) }
    ensures gone { rows.new ≡ without number rows.old }
{
    if let Some(place) = rows.place(number) {
        let row = rows.remove(place);
        close(host, row);
    }
}

/// Takes what came on the socket at this place.
fn read_at<H: Host>(
    host: &mut H,
    rows: &mut Rows<H::Stream>,
    place: usize,
    buf: &mut [u8],
) -> SocketRead
    requires inside { place < length rows.old }
    requires some { 0 < length buf.old }
    ensures within { TakesWithin result buf.new }
    ensures asked { (s : Stand) → slice_get rows.old place ≡ Some s → ReadsStand s (H.history host.old) (H.history host.new) result buf.new }
    ensures stands { rows.new ≡ rows.old }
{
    read_row(host, &mut rows.rows[place], buf)
}

/// Takes what came on the socket of this number, and closes it where it is over.
pub(crate) fn read<H: Host>(
    host: &mut H,
    rows: &mut Rows<H::Stream>,
    number: SocketId,
    buf: &mut [u8],
) -> SocketRead
    requires { 0 < length buf.old }
    ensures within { TakesWithin result buf.new }
    ensures asked { Reads (stand_in number rows.old) (H.history host.old) (H.history host.new) result buf.new }
    ensures stands { rows.new ≡ after_read result number rows.old }
{
    let Some(place) = rows.place(number) else {
        return SocketRead::Failed;
    };
    let read = read_at(host, rows, place, buf);
    if is_read_over(read) {
        shut(host, rows, number);
    }
    read
}

/// Gives the first of these bytes on the socket at this place.
fn write_at<H: Host>(
    host: &mut H,
    rows: &mut Rows<H::Stream>,
    place: usize,
    bytes: &[u8],
) -> SocketWrite
    requires inside { place < length rows.old }
    ensures within { GivesWithin result bytes.now }
    ensures asked { (s : Stand) → slice_get rows.old place ≡ Some s → WritesStand s (H.history host.old) (H.history host.new) result bytes.now }
    ensures stands { rows.new ≡ rows.old }
{
    write_row(host, &mut rows.rows[place], bytes)
}

/// Gives the first of these bytes on the socket of this number, and closes it where it is over.
pub(crate) fn write<H: Host>(
    host: &mut H,
    rows: &mut Rows<H::Stream>,
    number: SocketId,
    bytes: &[u8],
) -> SocketWrite
    ensures within { GivesWithin result bytes.now }
    ensures asked { Writes (stand_in number rows.old) (H.history host.old) (H.history host.new) result bytes.now }
    ensures stands { rows.new ≡ after_write result number rows.old }
{
    let Some(place) = rows.place(number) else {
        return SocketWrite::Failed;
    };
    let write = write_at(host, rows, place, bytes);
    if is_write_over(write) {
        shut(host, rows, number);
    }
    write
}
