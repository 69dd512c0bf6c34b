//! The logger is dialled, and its socket read and shut.

ghost use Rattle.std.specs.Prelude.{◌≡◌, ◌≤◌, false, true, length};
ghost use Rattle.deposit_rules.specs.Lines.{room_of};
ghost use Rattle.deposit_rules.specs.Rules as L;
ghost use Rattle.socket_station.specs.Withins.{TakesWithin};
ghost use Rattle.live_deposit.specs.Told.{IsReady};
ghost use Rattle.live_deposit.specs.Reading as R;

use crate::deposit::{Deposit, MOST_MOVED};
use deposit_rules::DepositLine;
use socket_station::{Addr, Dial, SocketRead, Station};
use wire_frames::Frame;

/// A read of the line's socket answered this, with what it took at the front of these bytes.
fn put_read(line: &mut DepositLine, read: SocketRead, bytes: &[u8])
    requires within { TakesWithin read bytes.now }
    requires room { length bytes.now ≤ room_of line.old }
    requires place { line.old.reader.place ≤ line.old.taken }
    ensures line { line.new ≡ R.read_by read bytes.now line.old }
    ensures place { line.new.reader.place ≤ line.new.taken }
{
    match read {
        SocketRead::Took(count) => line.take(&bytes[..count]),
        SocketRead::NotYet => line.is_quiet = true,
        SocketRead::Ended => line.is_open = false,
        SocketRead::Failed => line.is_open = false,
    }
}

impl Deposit {
    /// Whether the logger may be dialled.
    pub(crate) fn may_dial(&self) -> bool
        ensures { result ≡ R.may_dial self.now }
    {
        !self.line.is_open && !self.is_dialled
    }

    /// Dials the logger. Where that is done, the HELLO is due on the new socket.
    pub(crate) fn dial<S: Station>(&mut self, station: &mut S)
        requires ready { IsReady (S.history station.old) self.old }
        requires may { R.may_dial self.old ≡ true }
        ensures { R.Dials (S.history station.old) (S.history station.new) self.old self.new }
    {
        self.is_dialled = true;
        let ip = self.logger.addr.ip;
        let addr = Addr {
            ip,
            port: self.logger.addr.port,
        };
        match station.dial(self.player, addr) {
            Dial::Socket(socket) => {
                let hello = Frame::Hello {
                    id: self.id,
                    player: self.player,
                    pass: self.logger.shows,
                    next: 0,
                };
                self.line = DepositLine::dialled(socket, &hello);
            }
            Dial::Failed => {}
        }
    }

    /// Whether the socket is to be read.
    fn wants_read(&self) -> bool
        ensures { result ≡ L.wants_read self.now.line }
    {
        self.line.is_open && !self.line.asks_shut() && !self.line.is_quiet
    }

    /// Reads once, no more than may be taken.
    fn read<S: Station>(&mut self, station: &mut S)
        requires ready { IsReady (S.history station.old) self.old }
        requires wants { L.wants_read self.old.line ≡ true }
        ensures { R.Reads (S.history station.old) (S.history station.new) self.old self.new }
    {
        let most = MOST_MOVED.min(self.line.room() as usize);
        let read = station.read(self.line.socket, &mut self.buffer[..most]);
        put_read(&mut self.line, read, &self.buffer[..most]);
    }

    /// Reads until nothing is there, or a rule or the limit asks to shut the socket.
    fn read_out<S: Station>(&mut self, station: &mut S)
        requires ready { IsReady (S.history station.old) self.old }
        ensures { R.ReadsOut (S.history station.old) (S.history station.new) self.old self.new }
    {
        while self.wants_read() {
            self.read(station);
        }
    }

    /// Shuts the socket, if a rule or the limit asks for it.
    fn shut<S: Station>(&mut self, station: &mut S)
        requires ready { IsReady (S.history station.old) self.old }
        requires out { L.wants_read self.old.line ≡ false }
        ensures { R.Clears (S.history station.old) (S.history station.new) self.old self.new }
    {
        if self.line.is_open && self.line.asks_shut() {
            station.shut(self.line.socket);
            self.line.is_open = false;
        }
    }

    /// Reads all that is there, and shuts the socket, if that is asked for then.
    pub(crate) fn clear<S: Station>(&mut self, station: &mut S)
        requires ready { IsReady (S.history station.old) self.old }
        ensures { R.Clears (S.history station.old) (S.history station.new) self.old self.new }
    {
        self.read_out(station);
        self.shut(station);
    }
}
