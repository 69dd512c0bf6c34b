//! A first frame comes on a socket, which gets its name by it.

ghost use Rattle.std.specs.Prelude.{◌≡◌, ◌≤◌, ◌<◌, ◌+◌, ◌^◌, Some, length, slice_get};
ghost use Rattle.wire_frames.specs.Reading.{fed_step};
ghost use Rattle.socket_lines.specs.declared.line.Line.{Line};
ghost use Rattle.socket_lines.specs.Lines.{unnamed_room};
ghost use Rattle.socket_list.specs.Sockets.{IsAt, at_line, fed_line, greeted_line, with_name_free};

use crate::lines::oust_all;
use crate::sockets::Sockets;
use definitions::PlayerId;
use socket_lines::Line;
use socket_station::SocketId;
use wire_frames::{Fed, Frame};

/// Reads on in a first frame with these bytes.
fn feed_line(line: &mut Line, bytes: &[u8]) -> Fed
    requires place { line.old.reader.place + length bytes.now < 2 ^ 64 }
    requires taken { line.old.taken + length bytes.now < 2 ^ 32 }
    ensures line { line.new ≡ fed_line (length bytes.now) (fed_step line.old.reader bytes.now).reader line.old }
    ensures fed { result ≡ (fed_step line.old.reader bytes.now).fed }
    ensures place { line.new.reader.place ≤ line.old.reader.place + length bytes.now }
{
    line.taken += bytes.len() as u32;
    line.reader.feed(bytes)
}

/// The line has the player's name, and the frame is due on it.
fn greet_line(line: &mut Line, player: PlayerId, frame: &Frame)
    ensures { line.new ≡ greeted_line player frame.now line.old }
{
    line.name = Some(player);
    line.unsent.put(frame);
}

impl Sockets {
    /// Bytes came on the socket, no more than a HELLO may still have. The answer says what they
    /// make of its first frame.
    pub fn feed(&mut self, place: usize, socket: SocketId, bytes: &[u8]) -> Fed
        requires at { IsAt self.old place socket }
        requires few { (l : Line) → slice_get self.old.lines place ≡ Some l → length bytes.now ≤ unnamed_room l }
        ensures sockets { (l : Line) → slice_get self.old.lines place ≡ Some l → self.new ≡ at_line socket (fed_line (length bytes.now) (fed_step l.reader bytes.now).reader) self.old }
        ensures fed { (l : Line) → slice_get self.old.lines place ≡ Some l → result ≡ (fed_step l.reader bytes.now).fed }
    {
        feed_line(&mut self.lines[place], bytes)
    }

    /// The sockets that have the player's name are to be shut.
    pub fn free_name(&mut self, player: PlayerId)
        ensures { self.new ≡ with_name_free player self.old }
    {
        oust_all(&mut self.lines, player);
    }

    /// The socket has the player's name, and the frame is due on it.
    pub fn greet(&mut self, place: usize, socket: SocketId, player: PlayerId, frame: &Frame)
        requires { IsAt self.old place socket }
        ensures { self.new ≡ at_line socket (greeted_line player frame.now) self.old }
    {
        greet_line(&mut self.lines[place], player, frame);
    }
}
