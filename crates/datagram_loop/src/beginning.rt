//! How a loop begins.

ghost use Rattle.std.specs.Prelude.{◌≡◌, ◌++◌, ◌∷◌, []};
ghost use Rattle.datagram_post.specs.Items.{did_by, log_item, bind_item};
ghost use Rattle.peer_rules.specs.Addresses.{told_addr};
ghost use Rattle.datagram_loop.specs.States.{in_phase};
ghost use Rattle.datagram_loop.specs.Beginning.{IsNew, Begins, logged_on, bound_on};

use crate::looping::PostLoop;
use datagram_post::Post;
use loop_ends::Begun;
use peer_rules::Phase;
use socket_station::{Addr, Did};

impl PostLoop {
    /// Begins the log.
    fn log_to<D: Post>(&mut self, post: &mut D, name: &[u8]) -> bool
        requires fresh { self.old.phase ≡ Phase.Fresh }
        ensures told { D.history post.new ≡ D.history post.old ++ log_item (did_by result) name.now ∷ [] }
        ensures after { self.new ≡ logged_on result self.old }
    {
        match post.log_to(name) {
            Did::Done => {
                self.phase = Phase::Logged;
                true
            }
            Did::Failed => {
                self.phase = Phase::KeepFault;
                false
            }
        }
    }

    /// Binds the own address.
    fn bind<D: Post>(&mut self, post: &mut D) -> bool
        requires logged { self.old.phase ≡ Phase.Logged }
        ensures told { D.history post.new ≡ D.history post.old ++ bind_item (did_by result) (told_addr self.old.roster.me) ∷ [] }
        ensures after { self.new ≡ bound_on result self.old }
    {
        let me = self.roster.me();
        let ip = me.ip;
        match post.bind(Addr { ip, port: me.port }) {
            Did::Done => {
                self.phase = Phase::Running;
                true
            }
            Did::Failed => {
                self.phase = Phase::PollFault;
                false
            }
        }
    }

    /// Begins the log of this name and binds the own address. It is called first, on a post of
    /// which no call was made. It answers `KeepFault` or `PollFault` exactly where the one call or
    /// the other failed, and ends there.
    pub fn begin<D: Post>(&mut self, post: &mut D, name: &[u8]) -> Begun
        requires new { IsNew self.old }
        requires first { D.history post.old ≡ [] }
        ensures { Begins name.now result self.old self.new (D.history post.new) }
    {
        if !self.log_to(post, name) {
            return Begun::KeepFault;
        }
        if !self.bind(post) {
            return Begun::PollFault;
        }
        Begun::Ready
    }
}
