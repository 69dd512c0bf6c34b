//! The HELLO and the log are written.

ghost use Rattle.std.specs.Prelude.{◌≡◌, ◌<◌, true, Some};
ghost use Rattle.definitions.specs.declared.limits.TheConstants.{LONGEST_LOG};
ghost use Rattle.live_deposit.specs.Told.{IsReady, Stands};
ghost use Rattle.live_deposit.specs.Reading.{IsRead};
ghost use Rattle.live_deposit.specs.Writing as W;
ghost use Rattle.live_deposit.specs.Serving as V;

use crate::deposit::{Deposit, MOST_MOVED};
use crate::settling::Settled;
use definitions::limits::LONGEST_LOG;
use deposit_rules::DepositLine;
use socket_station::{SocketWrite, Station};
use station::{Pull, Shelf};

/// A write of the HELLO answered this.
fn put_greeting(line: &mut DepositLine, write: SocketWrite)
    requires { W.MayGreet write line.old }
    ensures { line.new ≡ W.wrote_by write line.old }
{
    match write {
        SocketWrite::Gave(count) => line.unsent.give(count),
        SocketWrite::NotYet => line.is_blocked = true,
        SocketWrite::Failed => line.is_open = false,
    }
}

/// A write of the log answered this.
fn put_piece(line: &mut DepositLine, write: SocketWrite)
    requires { W.MayGive write line.old }
    ensures { line.new ≡ W.wrote_by write line.old }
{
    match write {
        SocketWrite::Gave(count) => line.give(count),
        SocketWrite::NotYet => line.is_blocked = true,
        SocketWrite::Failed => line.is_open = false,
    }
}

/// Asks for the bytes of the log from this place on, as many as the buffer has room for, and none
/// past the longest log's end.
fn fetch<H: Shelf>(shelf: &mut H, log: &[u8], at: u32, buffer: &mut [u8; MOST_MOVED]) -> Pull
    requires { at < LONGEST_LOG }
    ensures { W.Fetches (H.state shelf.old) (H.state shelf.new) log.now at result buffer.new }
{
    let most = MOST_MOVED.min(LONGEST_LOG - at as usize);
    shelf.read_at(log, u64::from(at), &mut buffer[..most])
}

impl Deposit {
    /// Whether a write on the socket may be tried.
    fn takes_bytes(&self) -> bool
        ensures { result ≡ W.takes_bytes self.now.line }
    {
        self.line.is_open && !self.line.is_blocked
    }

    /// Whether bytes of the HELLO are to be written.
    fn owes_hello(&self) -> bool
        ensures { result ≡ W.owes_hello self.now.line }
    {
        self.takes_bytes() && !self.line.unsent.is_empty()
    }

    /// Writes of the HELLO once.
    fn greet<S: Station>(&mut self, station: &mut S)
        requires ready { IsReady (S.history station.old) self.old }
        requires read { IsRead self.old.line }
        requires owes { W.owes_hello self.old.line ≡ true }
        ensures { W.Greets (S.history station.old) (S.history station.new) self.old self.new }
    {
        let write = station.write(self.line.socket, self.line.unsent.bytes());
        put_greeting(&mut self.line, write);
    }

    /// Writes the HELLO until all of it was given, or no more can be.
    pub(crate) fn greet_out<S: Station>(&mut self, station: &mut S)
        requires ready { IsReady (S.history station.old) self.old }
        requires read { IsRead self.old.line }
        ensures { W.GreetsOut (S.history station.old) (S.history station.new) self.old self.new }
    {
        while self.owes_hello() {
            self.greet(station);
        }
    }

    /// Reads the piece of the log that goes out next, from this place on, and writes of it once.
    /// The shelf is asked where nothing may be written too: only so it is known whether all is
    /// sent. It says what all came to, or None where there may be more to do.
    fn give_piece<S: Station, H: Shelf>(
        &mut self,
        station: &mut S,
        shelf: &mut H,
        log: &[u8],
        at: u32,
    ) -> Option<Settled>
        requires place { self.old.line.cursor ≡ Some at }
        requires stands { Stands (S.history station.old) self.old }
        requires greeted { V.IsGreeted self.old }
        ensures { V.GivesPiece log.now result (S.history station.old) (S.history station.new) (H.state shelf.old) (H.state shelf.new) self.old self.new }
    {
        if at as usize >= LONGEST_LOG {
            return Some(Settled::Sent);
        }
        match fetch(shelf, log, at, &mut self.buffer) {
            Pull::Ended => Some(Settled::Sent),
            Pull::Failed => Some(Settled::ShelfFault),
            Pull::Took(count) => {
                if !self.takes_bytes() {
                    return Some(Settled::Idle);
                }
                let write = station.write(self.line.socket, &self.buffer[..count]);
                put_piece(&mut self.line, write);
                None
            }
        }
    }

    /// Writes the log until its last byte was given, or no more can be.
    pub(crate) fn give_out<S: Station, H: Shelf>(
        &mut self,
        station: &mut S,
        shelf: &mut H,
        log: &[u8],
    ) -> Settled
        requires stands { Stands (S.history station.old) self.old }
        requires greeted { V.IsGreeted self.old }
        ensures { V.Serves log.now result (S.history station.old) (S.history station.new) (H.state shelf.old) (H.state shelf.new) self.old self.new }
    {
        'pieces: while let Some(at) = self.line.cursor {
            if let Some(settled) = self.give_piece(station, shelf, log, at) {
                return settled;
            }
        }
        Settled::Idle
    }
}
