//! A socket closes, or rests.

ghost use Rattle.std.specs.Prelude.{◌≡◌};
ghost use Rattle.socket_lines.specs.Lines.{closed, quieted, blocked, doomed};
ghost use Rattle.loop_rules.specs.Tables.{at_line};
ghost use Rattle.socket_table.specs.Finding.{IsAt};

use crate::table::Table;
use socket_station::SocketId;

impl Table {
    /// A read found nothing.
    pub fn quiet(&mut self, place: usize, socket: SocketId)
        requires { IsAt self.old place socket }
        ensures { self.new ≡ at_line socket quieted self.old }
    {
        self.lines[place].quiet();
    }

    /// A write was refused for now.
    pub fn block(&mut self, place: usize, socket: SocketId)
        requires { IsAt self.old place socket }
        ensures { self.new ≡ at_line socket blocked self.old }
    {
        self.lines[place].block();
    }

    /// The socket ended, failed or was shut.
    pub fn close(&mut self, place: usize, socket: SocketId)
        requires { IsAt self.old place socket }
        ensures { self.new ≡ at_line socket closed self.old }
    {
        self.lines[place].close();
    }

    /// A rule or a limit asks to shut the socket.
    pub(crate) fn doom(&mut self, place: usize, socket: SocketId)
        requires { IsAt self.old place socket }
        ensures { self.new ≡ at_line socket doomed self.old }
    {
        self.lines[place].doom();
    }
}
