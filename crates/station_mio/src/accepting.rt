//! Connections that wait are accepted.

ghost use Rattle.std.specs.Prelude.{◌≡◌};
ghost use Rattle.station_mio.specs.Accepting.{Accepts, IsNumbered};

use crate::streams::{enroll, would_block};
use machine_host::Host;
use socket_station::SocketId;

/// What became of a look for a connection that waits.
#[derive(Drop)]
pub(crate) enum Outcome<S> {
    /// A new socket.
    Came(S),
    /// None waits.
    Nobody,
    /// One couldn't be accepted, or not be watched.
    Refused,
}

/// The next connection that waits, as a socket of this number.
pub(crate) fn accept<H: Host>(
    host: &mut H,
    selector: &mut H::Selector,
    listener: &mut H::Listener,
    number: SocketId,
) -> Outcome<H::Stream>
    ensures asked { Accepts number result (H.history host.old) (H.history host.new) }
    ensures numbered { IsNumbered H.Stream.number number result }
{
    match host.accept(listener, number) {
        Err(fault) => {
            if would_block(fault) {
                Outcome::Nobody
            } else {
                Outcome::Refused
            }
        }
        Ok(stream) => match enroll(host, selector, stream) {
            Some(stream) => Outcome::Came(stream),
            None => Outcome::Refused,
        },
    }
}
