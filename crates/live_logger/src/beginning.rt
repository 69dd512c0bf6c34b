//! A logger begins.

ghost use Rattle.std.specs.Prelude.{◌≡◌, []};
ghost use Rattle.live_logger.specs.Beginning.{IsNew, Begins};

use crate::watch::Watch;
use socket_station::{Addr, Did, Station};

impl Watch {
    /// Listens at the roster's own address. It is the first call, on a station of which none was
    /// made. The answer is `Failed` only where `listen` failed; then no round is played.
    pub fn begin<S: Station>(&mut self, station: &mut S) -> Did
        requires { IsNew (S.history station.old) self.old }
        ensures { Begins result (S.history station.old) (S.history station.new) self.old self.new }
    {
        let me = self.board.me();
        let ip = me.ip;
        let addr = Addr { ip, port: me.port };
        let did = station.listen(addr);
        match did {
            Did::Done => self.board.listens(),
            Did::Failed => self.board.deafens(),
        }
        did
    }
}
