//! The outside of a peer.

ghost use Rattle.std.specs.Prelude.{◌≡◌, ◌<◌, ◌++◌, ◌∷◌, [], List, length};
ghost use Rattle.socket_station.specs.Items.{Item, listen_item, log_item, dial_item, poll_item, read_item, write_item, Shut, keep_item, sync_item};
ghost use Rattle.socket_station.specs.Standings.{standing_in, OpensNew};
ghost use Rattle.socket_station.specs.Withins.{TakesWithin, GivesWithin};

use crate::answers::{Addr, Dial, Did, SocketId, SocketRead, SocketWrite, Standing};
use crate::ready_list::ReadyList;
use definitions::PlayerId;

/// Sockets and a log. Each call adds one item to the history: what it was asked, and what it answered.
pub trait Station {
    /// What its calls answered so far, the first answer first.
    ghost history: { Self → List Item };

    /// Accepts sockets from now on.
    fn listen(&mut self, addr: Addr) -> Did
        ensures after { history self.new ≡ history self.old ++ listen_item result addr ∷ [] };

    /// Begins a new, empty log of that name. A name that is there is a fault.
    fn log_to(&mut self, name: &[u8]) -> Did
        ensures after { history self.new ≡ history self.old ++ log_item result name.now ∷ [] };

    /// Opens a socket to the address, for that player.
    fn dial(&mut self, player: PlayerId, addr: Addr) -> Dial
        ensures after { history self.new ≡ history self.old ++ dial_item result player addr ∷ [] }
        ensures fresh { OpensNew (history self.old) (dial_item result player addr) };

    /// Waits, then lists new sockets and sockets that may be ready, perhaps falsely, perhaps none, in place of what was in the list.
    /// Where it fails, the list may be anything.
    fn poll(&mut self, ready: &mut ReadyList) -> Did
        ensures after { history self.new ≡ history self.old ++ poll_item result ready.new ∷ [] }
        ensures fresh { OpensNew (history self.old) (poll_item result ready.new) };

    /// Takes the next bytes that came, at least one and at most as many as the buffer has room for.
    fn read(&mut self, socket: SocketId, buf: &mut [u8]) -> SocketRead
        requires some { 0 < length buf.old }
        requires is_open { standing_in (history self.old) socket ≡ Standing.Open }
        ensures within { TakesWithin result buf.new }
        ensures after { history self.new ≡ history self.old ++ read_item socket result buf.new ∷ [] };

    /// Gives the first of these bytes, at least one.
    fn write(&mut self, socket: SocketId, bytes: &[u8]) -> SocketWrite
        requires some { 0 < length bytes.now }
        requires is_open { standing_in (history self.old) socket ≡ Standing.Open }
        ensures within { GivesWithin result bytes.now }
        ensures after { history self.new ≡ history self.old ++ write_item socket result bytes.now ∷ [] };

    /// Closes the socket. It never fails.
    fn shut(&mut self, socket: SocketId)
        requires { standing_in (history self.old) socket ≡ Standing.Open }
        ensures { history self.new ≡ history self.old ++ Shut socket ∷ [] };

    /// Appends to the log.
    fn keep(&mut self, bytes: &[u8]) -> Did
        ensures { history self.new ≡ history self.old ++ keep_item result bytes.now ∷ [] };

    /// What was kept stays after a crash.
    fn sync(&mut self) -> Did
        ensures { history self.new ≡ history self.old ++ sync_item result ∷ [] };
}
