//! What a read, a write or a rule says of one socket. It is named by its place in the list, from
//! 0, and by the station's number of it.

ghost use Rattle.std.specs.Prelude.{◌≡◌, ◌≤◌, Some, length, slice_get};
ghost use Rattle.socket_lines.specs.declared.line.Line.{Line};
ghost use Rattle.socket_lines.specs.Lines.{closed, quieted, blocked, doomed};
ghost use Rattle.socket_list.specs.Sockets.{IsAt, at_line, gave_line};

use crate::sockets::Sockets;
use socket_station::SocketId;

impl Sockets {
    /// A read of the socket found nothing.
    pub fn quiet(&mut self, place: usize, socket: SocketId)
        requires { IsAt self.old place socket }
        ensures { self.new ≡ at_line socket quieted self.old }
    {
        self.lines[place].quiet();
    }

    /// A write on the socket was refused for now.
    pub fn block(&mut self, place: usize, socket: SocketId)
        requires { IsAt self.old place socket }
        ensures { self.new ≡ at_line socket blocked self.old }
    {
        self.lines[place].block();
    }

    /// The socket ended, failed or was shut.
    pub fn close(&mut self, place: usize, socket: SocketId)
        requires { IsAt self.old place socket }
        ensures { self.new ≡ at_line socket closed self.old }
    {
        self.lines[place].close();
    }

    /// A rule asks to shut the socket.
    pub fn doom(&mut self, place: usize, socket: SocketId)
        requires { IsAt self.old place socket }
        ensures { self.new ≡ at_line socket doomed self.old }
    {
        self.lines[place].doom();
    }

    /// So many of the bytes due were given on the socket, no more than there are.
    pub fn give(&mut self, place: usize, socket: SocketId, count: usize)
        requires at { IsAt self.old place socket }
        requires count { (l : Line) → slice_get self.old.lines place ≡ Some l → count ≤ length l.unsent }
        ensures { self.new ≡ at_line socket (gave_line count) self.old }
    {
        self.lines[place].unsent.give(count);
    }
}
