//! Whether the loop has something to wait for.

ghost use Rattle.std.specs.Prelude.{◌≡◌, ◌<◌, Some, length, slice_get};
ghost use Rattle.std.specs.List.{list_any};
ghost use Rattle.definitions.specs.Honest.{made_count};
ghost use Rattle.socket_lines.specs.declared.line.Line.{Line};
ghost use Rattle.socket_lines.specs.Seats as S;
ghost use Rattle.loop_rules.specs.Licence.{bytes_wait, has_bytes};
ghost use Rattle.ready_loop.specs.Waiting.{waits_for};

use crate::ready::Loop;

impl Loop {
    /// Whether own bytes wait on the socket: a part of a frame, or where it has a name anything that is due.
    fn has_bytes(&self, place: usize) -> bool
        requires { place < length self.now.table.lines }
        ensures { (l : Line) → slice_get self.now.table.lines place ≡ Some l → result ≡ has_bytes (made_count self.now.peer.entries) self.now.table l }
    {
        let due = self.table.has_due(place, self.peer.made_count());
        let line = &self.table.lines()[place];
        line.is_open && (!line.unsent.is_empty() || line.name.is_some() && due)
    }

    /// Whether a player lacks an own frame.
    fn lacks(&self) -> bool
        ensures { result ≡ list_any (S.lacks (made_count self.now.peer.entries)) self.now.table.seats }
    {
        self.table.lacks(self.peer.made_count())
    }

    /// Whether own bytes wait: a player lacks an own frame, or something is due and not given.
    fn bytes_wait(&self) -> bool
        ensures { result ≡ bytes_wait (made_count self.now.peer.entries) self.now.table }
    {
        for place in 0..self.count() {
            if self.has_bytes(place) {
                return true;
            }
        }
        self.lacks()
    }

    /// Whether a frame of another player is missed, or own bytes wait.
    pub(crate) fn is_waited_for(&self) -> bool
        ensures { result ≡ waits_for self.now }
    {
        !self.peer.needs().as_slice().is_empty() || self.bytes_wait()
    }
}
