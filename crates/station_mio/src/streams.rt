//! One socket is read and written, and a new one is watched.

ghost use Rattle.std.specs.Prelude.{◌≡◌, ◌<◌, IfSome, is_some, length};
ghost use Rattle.socket_station.specs.Withins.{TakesWithin, GivesWithin};
ghost use Rattle.station_mio.specs.Rows.{stand_of};
ghost use Rattle.station_mio.specs.Asking.{ReadsStream, WritesStream, ReadsStand, WritesStand, Enrolls, Connects, would_block, read_of, write_of};

use crate::rows::Row;
use machine_host::{Host, HostFault};
use socket_station::{Addr, SocketId, SocketRead, SocketWrite};

/// Whether nothing can be done now.
pub(crate) fn would_block(fault: HostFault) -> bool
    ensures { result ≡ would_block fault }
{
    matches!(fault, HostFault::WouldBlock)
}

/// What a read comes to.
fn read_of(answer: Result<usize, HostFault>) -> SocketRead
    ensures { result ≡ read_of answer }
{
    match answer {
        Ok(0) => SocketRead::Ended,
        Ok(count) => SocketRead::Took(count),
        Err(fault) => if would_block(fault) {
            SocketRead::NotYet
        } else {
            SocketRead::Failed
        },
    }
}

/// What a write comes to.
fn write_of(answer: Result<usize, HostFault>) -> SocketWrite
    ensures { result ≡ write_of answer }
{
    match answer {
        Ok(0) => SocketWrite::Failed,
        Ok(count) => SocketWrite::Gave(count),
        Err(fault) => if would_block(fault) {
            SocketWrite::NotYet
        } else {
            SocketWrite::Failed
        },
    }
}

/// Takes what came.
pub(crate) fn read_stream<H: Host>(
    host: &mut H,
    stream: &mut H::Stream,
    buf: &mut [u8],
) -> SocketRead
    requires { 0 < length buf.old }
    ensures within { TakesWithin result buf.new }
    ensures asked { ReadsStream (H.Stream.number stream.old) (H.history host.old) (H.history host.new) result buf.new }
    ensures same { H.Stream.number stream.new ≡ H.Stream.number stream.old }
{
    let answer = host.read(stream, buf);
    read_of(answer)
}

/// Gives the first of these bytes.
fn write_stream<H: Host>(host: &mut H, stream: &mut H::Stream, bytes: &[u8]) -> SocketWrite
    ensures within { GivesWithin result bytes.now }
    ensures asked { WritesStream (H.Stream.number stream.old) (H.history host.old) (H.history host.new) result bytes.now }
    ensures same { H.Stream.number stream.new ≡ H.Stream.number stream.old }
{
    let answer = host.write(stream, bytes);
    write_of(answer)
}

/// Takes what came on the socket of a row.
pub(crate) fn read_row<H: Host>(
    host: &mut H,
    row: &mut Row<H::Stream>,
    buf: &mut [u8],
) -> SocketRead
    requires { 0 < length buf.old }
    ensures within { TakesWithin result buf.new }
    ensures asked { ReadsStand (stand_of H.Stream.number row.old) (H.history host.old) (H.history host.new) result buf.new }
    ensures same { stand_of H.Stream.number row.new ≡ stand_of H.Stream.number row.old }
{
    match row {
        Row::Due(_, _, _) => SocketRead::NotYet,
        Row::Dialled(stream, _) => read_stream(host, stream, buf),
        Row::Up(stream) => read_stream(host, stream, buf),
        Row::Lost(_) => SocketRead::Failed,
    }
}

/// Gives the first of these bytes on the socket of a row.
pub(crate) fn write_row<H: Host>(
    host: &mut H,
    row: &mut Row<H::Stream>,
    bytes: &[u8],
) -> SocketWrite
    ensures within { GivesWithin result bytes.now }
    ensures asked { WritesStand (stand_of H.Stream.number row.old) (H.history host.old) (H.history host.new) result bytes.now }
    ensures same { stand_of H.Stream.number row.new ≡ stand_of H.Stream.number row.old }
{
    match row {
        Row::Due(_, _, _) => SocketWrite::NotYet,
        Row::Dialled(stream, _) => write_stream(host, stream, bytes),
        Row::Up(stream) => write_stream(host, stream, bytes),
        Row::Lost(_) => SocketWrite::Failed,
    }
}

/// Has the readiness of a new socket reported, or closes it.
pub(crate) fn enroll<H: Host>(
    host: &mut H,
    selector: &mut H::Selector,
    stream: H::Stream,
) -> Option<H::Stream>
    ensures asked { Enrolls (H.Stream.number stream) (is_some result) (H.history host.old) (H.history host.new) }
    ensures same { IfSome result (λ s. H.Stream.number s ≡ H.Stream.number stream) }
{
    let mut stream = stream;
    match host.watch(selector, &mut stream) {
        Ok(()) => Some(stream),
        Err(_) => {
            host.close(stream);
            None
        }
    }
}

/// Begins to connect a new socket.
pub(crate) fn connect<H: Host>(
    host: &mut H,
    selector: &mut H::Selector,
    number: SocketId,
    addr: Addr,
) -> Option<H::Stream>
    ensures asked { Connects number addr (is_some result) (H.history host.old) (H.history host.new) }
    ensures same { IfSome result (λ s. H.Stream.number s ≡ number) }
{
    match host.connect(number, addr) {
        Ok(stream) => enroll(host, selector, stream),
        Err(_) => None,
    }
}
