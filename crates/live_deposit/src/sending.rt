//! Polls, and whole deposits.

ghost use Rattle.std.specs.Prelude.{◌≡◌};
ghost use Rattle.std.specs.List.{fold};
ghost use Rattle.live_deposit.specs.Told.{IsReady};
ghost use Rattle.live_deposit.specs.Polling.{Polls, Rounds, woken_at};
ghost use Rattle.live_deposit.specs.Sending.{Sends};

use crate::deposit::{Deposit, Deposited};
use crate::settling::Settled;
use deposit_rules::{DepositLine, DepositPhase};
use socket_station::{Did, Ready, Station};
use station::Shelf;

/// A poll listed this: the line's own socket may be read and written again.
fn heed(line: &mut DepositLine, item: Ready)
    ensures { line.new ≡ woken_at line.old item }
{
    match item {
        Ready::Opened(_) => {}
        Ready::Socket(socket) => {
            if line.socket == socket {
                line.is_quiet = false;
                line.is_blocked = false;
            }
        }
    }
}

/// A poll listed these.
fn heed_all(line: &mut DepositLine, list: &[Ready])
    ensures { line.new ≡ fold woken_at line.old list.now }
{
    for item in list {
        heed(line, *item);
    }
}

impl Deposit {
    /// Polls once, and says whether that was done.
    fn poll<S: Station>(&mut self, station: &mut S) -> bool
        requires ready { IsReady (S.history station.old) self.old }
        ensures { Polls result (S.history station.old) (S.history station.new) self.old self.new }
    {
        match station.poll(&mut self.ready) {
            Did::Done => {
                self.is_dialled = false;
                heed_all(&mut self.line, self.ready.as_slice());
                true
            }
            Did::Failed => {
                self.phase = DepositPhase::PollFault;
                false
            }
        }
    }

    /// Does all that may be done, and polls once, if a poll is left and the log isn't sent. It says
    /// how the deposit ended, or None where it goes on.
    fn round<S: Station, H: Shelf>(
        &mut self,
        station: &mut S,
        shelf: &mut H,
        log: &[u8],
        left: u64,
    ) -> Option<Deposited>
        requires ready { IsReady (S.history station.old) self.old }
        ensures { Rounds log.now left result (S.history station.old) (S.history station.new) (H.state shelf.old) (H.state shelf.new) self.old self.new }
    {
        match self.settle(station, shelf, log) {
            Settled::Sent => Some(Deposited::Sent),
            Settled::ShelfFault => Some(Deposited::ShelfFault),
            Settled::Idle => {
                if left == 0 {
                    return Some(Deposited::GaveUp);
                }
                if self.poll(station) {
                    None
                } else {
                    Some(Deposited::PollFault)
                }
            }
        }
    }

    /// Gives the log of that name on the shelf to the logger, with at most so many polls. Between
    /// any two polls, and before the first and after the last, it does all that may be done. It may
    /// be called again where it ended with anything but `PollFault`.
    pub fn send<S: Station, H: Shelf>(
        &mut self,
        station: &mut S,
        shelf: &mut H,
        log: &[u8],
        polls: u64,
    ) -> Deposited
        requires ready { IsReady (S.history station.old) self.old }
        ensures { Sends log.now polls result (S.history station.old) (S.history station.new) (H.state shelf.old) (H.state shelf.new) self.old self.new }
    {
        let mut left = polls;
        'rounds: loop {
            if let Some(end) = self.round(station, shelf, log, left) {
                return end;
            }
            left -= 1;
        }
    }
}
