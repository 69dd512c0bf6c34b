//! The end of all sockets in good order.

ghost use Rattle.std.specs.Prelude.{◌≡◌, ◌<◌, length};
ghost use Rattle.station_mio.specs.Rows.{stand_of};
ghost use Rattle.station_mio.specs.Ending.{Ends, EndsAt, EndsAll, Lingers};

use crate::rows::{Row, Rows, close};
use crate::streams::read_row;
use machine_host::Host;
use socket_station::SocketRead;

/// How often more is read of a socket to find its end, so that no neighbour holds it up for ever.
pub const MOST_READS: u32 = 1_000;

/// Says to the other side, where there is one, that no more is sent.
fn end<H: Host>(host: &mut H, row: &mut Row<H::Stream>)
    ensures asked { Ends (stand_of H.Stream.number row.old) (H.history host.old) (H.history host.new) }
    ensures same { stand_of H.Stream.number row.new ≡ stand_of H.Stream.number row.old }
{
    // one that is broken already is found so by its next read
    match row {
        Row::Due(_, _, _) | Row::Lost(_) => {}
        Row::Dialled(stream, _) => {
            let _ = host.end_writes(stream);
        }
        Row::Up(stream) => {
            let _ = host.end_writes(stream);
        }
    }
}

/// Ends the write side of the socket at this place.
fn end_at<H: Host>(host: &mut H, rows: &mut Rows<H::Stream>, place: usize)
    requires inside { place < length rows.old }
    ensures asked { EndsAt place rows.old (H.history host.old) (H.history host.new) }
    ensures same { rows.new ≡ rows.old }
{
    end(host, &mut rows.rows[place]);
}

/// Ends the write sides of all sockets.
pub(crate) fn end_all<H: Host>(host: &mut H, rows: &mut Rows<H::Stream>)
    ensures asked { EndsAll rows.old (H.history host.old) (H.history host.new) }
    ensures same { rows.new ≡ rows.old }
{
    for place in 0..rows.len() {
        end_at(host, rows, place);
    }
}

/// Reads what came, which nobody wants any more, and says whether more may come.
fn drain<H: Host>(host: &mut H, row: &mut Row<H::Stream>) -> bool
    ensures { Lingers (H.history host.old) (H.history host.new) }
{
    // nothing comes where nobody was dialled yet, and its time would wake each wait
    if let Row::Due(_, _, _) = row {
        return false;
    }
    let mut buf = [0; 4096];
    for _ in 0..MOST_READS {
        match read_row(host, row, &mut buf) {
            SocketRead::Took(_) => {}
            SocketRead::NotYet => return true,
            SocketRead::Ended | SocketRead::Failed => return false,
        }
    }
    false
}

/// Reads what came at this place.
fn drain_at<H: Host>(host: &mut H, rows: &mut Rows<H::Stream>, place: usize) -> bool
    requires inside { place < length rows.old }
    ensures asked { Lingers (H.history host.old) (H.history host.new) }
    ensures many { length rows.new ≡ length rows.old }
{
    drain(host, &mut rows.rows[place])
}

/// Reads what came on all sockets, and closes those on which nothing more comes.
pub(crate) fn drain_all<H: Host>(host: &mut H, rows: &mut Rows<H::Stream>)
    ensures { Lingers (H.history host.old) (H.history host.new) }
{
    let mut place = rows.len();
    while place > 0 {
        place -= 1;
        if !drain_at(host, rows, place) {
            let row = rows.remove(place);
            close(host, row);
        }
    }
}
