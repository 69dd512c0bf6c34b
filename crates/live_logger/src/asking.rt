//! What a logger is asked before a call of its station.

ghost use Rattle.std.specs.Prelude.{◌≡◌, ◌<◌, false, Some, length, slice_get};
ghost use Rattle.socket_lines.specs.declared.line.Line.{Line};
ghost use Rattle.log_streams.specs.Streams.{room_at};
ghost use Rattle.watch_rules.specs.Hearing as H;
ghost use Rattle.watch_rules.specs.Licence as L;
ghost use Rattle.watch_rules.specs.Rules as R;

use crate::board::Board;
use definitions::PlayerId;

impl Board {
    /// How many bytes may still be taken of the player's log: none, where the session has no such
    /// player.
    fn log_room(&self, player: PlayerId) -> u32
        requires { self.now.is_out_of_memory ≡ false }
        ensures { result ≡ room_at (slice_get self.now.view.streams player) }
    {
        self.books.facts();
        if player < self.books.session().players() {
            self.books.room(player)
        } else {
            0
        }
    }

    /// Whether a HELLO names a socket: it has the session's id, a player that is not closed, and
    /// the pass wanted of that one.
    pub(crate) fn names(&self, id: &[u8; 32], player: PlayerId, pass: &[u8; 16]) -> bool
        requires { self.now.is_out_of_memory ≡ false }
        ensures { result ≡ H.names self.now.view id.now player pass.now }
    {
        let room = self.log_room(player);
        match self.roster.links().get(usize::from(player)) {
            None => false,
            Some(link) => id == self.books.session().id() && *pass == link.wants && room != 0,
        }
    }

    /// How many bytes may be taken on the socket at the place.
    pub(crate) fn room(&self, place: usize) -> u32
        requires place { place < length self.now.view.sockets.lines }
        requires whole { self.now.is_out_of_memory ≡ false }
        ensures { (l : Line) → slice_get self.now.view.sockets.lines place ≡ Some l → result ≡ H.room_on self.now.view l }
    {
        let line = &self.sockets.lines()[place];
        match line.name {
            None => line.unnamed_room(),
            Some(player) => self.log_room(player),
        }
    }

    /// Whether a rule or a limit asks to shut the socket at the place.
    pub(crate) fn asks_shut(&self, place: usize) -> bool
        requires place { place < length self.now.view.sockets.lines }
        requires whole { self.now.is_out_of_memory ≡ false }
        ensures { (l : Line) → slice_get self.now.view.sockets.lines place ≡ Some l → result ≡ L.asks_shut self.now.view l }
    {
        let room = self.room(place);
        let line = &self.sockets.lines()[place];
        line.is_open && (line.is_wrong || room == 0)
    }

    /// Whether the socket at the place is to be read.
    pub(crate) fn wants_read(&self, place: usize) -> bool
        requires place { place < length self.now.view.sockets.lines }
        requires whole { self.now.is_out_of_memory ≡ false }
        ensures { (l : Line) → slice_get self.now.view.sockets.lines place ≡ Some l → result ≡ R.wants_read self.now.view l }
    {
        let asks_shut = self.asks_shut(place);
        let line = &self.sockets.lines()[place];
        line.is_open && !asks_shut && !line.is_quiet
    }

    /// Whether the socket at the place is to be written.
    pub(crate) fn wants_write(&self, place: usize) -> bool
        requires place { place < length self.now.view.sockets.lines }
        requires whole { self.now.is_out_of_memory ≡ false }
        ensures { (l : Line) → slice_get self.now.view.sockets.lines place ≡ Some l → result ≡ R.wants_write self.now.view l }
    {
        let asks_shut = self.asks_shut(place);
        let line = &self.sockets.lines()[place];
        line.is_open && !asks_shut && !line.is_blocked && !line.unsent.is_empty()
    }
}
