//! The sockets of a loop place by place.

ghost use Rattle.std.specs.Prelude.{◌≡◌, ◌<◌, Some, length, slice_get};
ghost use Rattle.socket_lines.specs.declared.line.Line.{Line};
ghost use Rattle.loop_rules.specs.Tables as T;
ghost use Rattle.loop_rules.specs.Rules as R;
ghost use Rattle.socket_table.specs.Finding.{IsAt};

use crate::ready::Loop;
use socket_station::SocketId;

impl Loop {
    /// How many sockets there are.
    pub(crate) fn count(&self) -> usize
        ensures { result ≡ length self.now.table.lines }
    {
        self.table.lines().len()
    }

    /// The socket at the place.
    pub(crate) fn socket_at(&self, place: usize) -> SocketId
        requires { place < length self.now.table.lines }
        ensures { IsAt self.now.table place result }
    {
        self.table.lines()[place].socket
    }

    /// Whether the socket at the place is to be read.
    pub(crate) fn wants_read(&self, place: usize) -> bool
        requires { place < length self.now.table.lines }
        ensures { (l : Line) → slice_get self.now.table.lines place ≡ Some l → result ≡ R.wants_read self.now.table l }
    {
        self.table.wants_read(place)
    }

    /// Whether a rule or a limit asks to shut the socket at the place.
    pub(crate) fn asks_shut(&self, place: usize) -> bool
        requires { place < length self.now.table.lines }
        ensures { (l : Line) → slice_get self.now.table.lines place ≡ Some l → result ≡ T.asks_shut self.now.table l }
    {
        self.table.asks_shut(place)
    }
}
