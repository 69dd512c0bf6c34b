//! How a loop begins.

ghost use Rattle.std.specs.Prelude.{◌≡◌, ◌++◌, ◌∷◌, [], length};
ghost use Rattle.socket_station.specs.Items.{log_item, listen_item};
ghost use Rattle.peer_rules.specs.Addresses.{told_addr};
ghost use Rattle.ready_loop.specs.Steps.{did_by};
ghost use Rattle.ready_loop.specs.Beginning.{IsNew, Begins};
ghost use Rattle.ready_loop.specs.Overs.{logged_on, listens_on, IsTakingOver, TakesOver, SyncsOver};

use crate::ready::Loop;
use loop_ends::Begun;
use peer_rules::Phase;
use socket_station::{Addr, Did, Station};

impl Loop {
    /// Begins the log.
    fn log_to<S: Station>(&mut self, station: &mut S, name: &[u8]) -> bool
        requires fresh { self.old.phase ≡ Phase.Fresh }
        ensures told { S.history station.new ≡ S.history station.old ++ log_item (did_by result) name.now ∷ [] }
        ensures after { self.new ≡ logged_on result self.old }
    {
        match station.log_to(name) {
            Did::Done => {
                self.phase = Phase::Logged;
                true
            }
            Did::Failed => {
                self.phase = Phase::KeepFault;
                false
            }
        }
    }

    /// Keeps the entries taken over, those that are not kept yet.
    fn keep_over<S: Station>(&mut self, station: &mut S) -> bool
        requires taking { IsTakingOver (S.history station.old) self.old }
        ensures { TakesOver result (S.history station.old) (S.history station.new) self.old self.new }
    {
        while self.kept < self.over {
            if !self.keep_next(station) {
                return false;
            }
        }
        true
    }

    /// Syncs the entries taken over, where there are any.
    fn sync_over<S: Station>(&mut self, station: &mut S) -> bool
        requires taking { IsTakingOver (S.history station.old) self.old }
        requires all { self.old.kept ≡ length self.old.peer.entries }
        ensures { SyncsOver result (S.history station.old) (S.history station.new) self.old self.new }
    {
        if self.synced == self.kept {
            return true;
        }
        self.sync_kept(station)
    }

    /// Listens at the own address.
    fn listen<S: Station>(&mut self, station: &mut S) -> bool
        requires logged { self.old.phase ≡ Phase.Logged }
        ensures told { S.history station.new ≡ S.history station.old ++ listen_item (did_by result) (told_addr self.old.roster.me) ∷ [] }
        ensures after { self.new ≡ listens_on result self.old }
    {
        let me = self.roster.me();
        let ip = me.ip;
        match station.listen(Addr { ip, port: me.port }) {
            Did::Done => {
                self.phase = Phase::Running;
                true
            }
            Did::Failed => {
                self.phase = Phase::PollFault;
                false
            }
        }
    }

    /// Begins the log of this name, keeps and syncs the entries that the peer had, and listens. It is called first, on a station of which no
    /// call was made.
    pub fn begin<S: Station>(&mut self, station: &mut S, name: &[u8]) -> Begun
        requires new { IsNew self.old }
        requires first { S.history station.old ≡ [] }
        ensures { Begins name.now result self.old self.new (S.history station.new) }
    {
        if !self.log_to(station, name) {
            return Begun::KeepFault;
        }
        if !self.keep_over(station) {
            return Begun::KeepFault;
        }
        if !self.sync_over(station) {
            return Begun::KeepFault;
        }
        if !self.listen(station) {
            return Begun::PollFault;
        }
        Begun::Ready
    }
}
