//! All is done that may be done before the next poll.

ghost use Rattle.live_deposit.specs.Told.{IsReady};
ghost use Rattle.live_deposit.specs.Serving.{Serves};
ghost use Rattle.live_deposit.specs.Sending.{Settles};

use crate::deposit::Deposit;
use socket_station::Station;
use station::Shelf;

/// What all that may be done before a poll came to.
pub(crate) enum Settled {
    /// Nothing is left to do before a poll.
    Idle,
    /// The log's last byte was given, or the logger wants a place at or past its end.
    Sent,
    /// The shelf failed.
    ShelfFault,
}

impl Deposit {
    /// Reads the socket, shuts it if that is asked for, and writes on it. Where none is open the
    /// shelf alone is asked, whether the log is sent.
    fn serve<S: Station, H: Shelf>(&mut self, station: &mut S, shelf: &mut H, log: &[u8]) -> Settled
        requires ready { IsReady (S.history station.old) self.old }
        ensures { Serves log.now result (S.history station.old) (S.history station.new) (H.state shelf.old) (H.state shelf.new) self.old self.new }
    {
        self.clear(station);
        self.greet_out(station);
        self.give_out(station, shelf, log)
    }

    /// Does all that may be done before the next poll. Where no socket is open, and none was
    /// dialled since the last poll, the logger is dialled, and the new socket served.
    pub(crate) fn settle<S: Station, H: Shelf>(
        &mut self,
        station: &mut S,
        shelf: &mut H,
        log: &[u8],
    ) -> Settled
        requires ready { IsReady (S.history station.old) self.old }
        ensures { Settles log.now result (S.history station.old) (S.history station.new) (H.state shelf.old) (H.state shelf.new) self.old self.new }
    {
        match self.serve(station, shelf, log) {
            Settled::Sent => Settled::Sent,
            Settled::ShelfFault => Settled::ShelfFault,
            Settled::Idle => {
                if !self.may_dial() {
                    return Settled::Idle;
                }
                self.dial(station);
                self.serve(station, shelf, log)
            }
        }
    }
}
