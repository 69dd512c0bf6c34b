//! A loop over any station: how it begins, and how it plays a round.

ghost use Rattle.std.specs.Prelude.{◌≡◌, [], None, IfOk};
ghost use Rattle.ready_loop.specs.Beginning.{IsNew};
ghost use Rattle.ready_loop.specs.Settling.{IsReady};

use peer_core::Peer;
use pilots::Pilot;
use rand_pcg::Pcg32;
use ready_loop::{Begun, Ended, Loop, Round};
use rosters::read_roster;
use socket_station::Station;
use std::alloc::Global;
use std::test::Fail;

/// A loop of the peer.
#[tactic(auto, using(crate::proofs::Ready::read_links, crate::proofs::Ready::is_new))]
pub fn loop_of(alloc: Global, peer: Peer, roster: &[u8]) -> Result<Loop, Fail>
    ensures { IfOk result (λ l. IsNew l) }
{
    let me = peer.me();
    let roster = match read_roster(alloc, roster, peer.session(), me) {
        Ok(roster) => roster,
        Err(_) => return Err("roster".into()),
    };
    Ok(Loop::new(alloc, peer, roster)?)
}

/// Begins, and says how the run ended, if it did.
#[tactic(auto, using(ready_loop::proofs::Began::begun_is_ready))]
pub fn begin<S: Station>(it: &mut Loop, station: &mut S) -> Option<Ended>
    requires new { IsNew it.old }
    requires first { S.history station.old ≡ [] }
    ensures { result ≡ None → IsReady (S.history station.new) it.new }
{
    match it.begin(station, b"log") {
        Begun::Ready => None,
        Begun::KeepFault => Some(Ended::KeepFault),
        Begun::PollFault => Some(Ended::PollFault),
    }
}

/// Plays a round, and says how the run ended, if it did.
#[tactic(auto, using(crate::proofs::Ready::on_is_ready))]
pub fn play_round<S: Station, P: Pilot>(
    it: &mut Loop,
    station: &mut S,
    pilot: &mut P,
    chance: &mut Pcg32,
) -> Option<Ended>
    requires { IsReady (S.history station.old) it.old }
    ensures { result ≡ None → IsReady (S.history station.new) it.new }
{
    match it.round(station, pilot, chance) {
        Round::On => None,
        Round::Done => Some(Ended::Done),
        Round::Caught(finding) => Some(Ended::Caught(finding)),
        Round::PollFault => Some(Ended::PollFault),
        Round::KeepFault => Some(Ended::KeepFault),
        Round::OwnMove(turn, fault) => Some(Ended::OwnMove(turn, fault)),
    }
}
