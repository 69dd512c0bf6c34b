//! The outside of a peer over datagrams.

ghost use Rattle.std.specs.Prelude.{◌≡◌, ◌++◌, ◌∷◌, [], List};
ghost use Rattle.datagram_post.specs.Items.{Item, bind_item, log_item, poll_item, receive_item, send_item, keep_item, sync_item};
ghost use Rattle.datagram_post.specs.Withins.{TakesWithin};

use crate::answers::{Received, Sent};
use socket_station::{Addr, Did};

/// Datagrams and a log. Each call adds one item to the history: what it was asked and answered. A
/// call of any kind may fail at any time.
pub trait Post {
    /// What its calls answered so far, the first answer first.
    ghost history: { Self → List Item };

    /// Receives and sends at this own address from now on. An address in use is a fault.
    fn bind(&mut self, addr: Addr) -> Did
        ensures { history self.new ≡ history self.old ++ bind_item result addr ∷ [] };

    /// Begins a new, empty log of that name. A name that is there is a fault.
    fn log_to(&mut self, name: &[u8]) -> Did
        ensures { history self.new ≡ history self.old ++ log_item result name.now ∷ [] };

    /// Waits until a datagram may be there, perhaps falsely, or for some time at most.
    fn poll(&mut self) -> Did
        ensures { history self.new ≡ history self.old ++ poll_item result ∷ [] };

    /// Takes the next datagram that came, or the first `MOST_TAKEN` bytes of a longer one.
    fn receive(&mut self, buf: &mut [u8; 128]) -> Received
        ensures within { TakesWithin result }
        ensures after { history self.new ≡ history self.old ++ receive_item result buf.new ∷ [] };

    /// Gives a datagram to the address, whole or not at all.
    fn send(&mut self, addr: Addr, bytes: &[u8]) -> Sent
        ensures { history self.new ≡ history self.old ++ send_item result addr bytes.now ∷ [] };

    /// Appends to the log.
    fn keep(&mut self, bytes: &[u8]) -> Did
        ensures { history self.new ≡ history self.old ++ keep_item result bytes.now ∷ [] };

    /// What was kept stays after a crash.
    fn sync(&mut self) -> Did
        ensures { history self.new ≡ history self.old ++ sync_item result ∷ [] };
}
