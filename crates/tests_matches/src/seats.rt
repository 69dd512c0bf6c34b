//! A player whose station stands on a machine in memory.

ghost use Rattle.std.specs.Prelude.{◌≡◌, [], None};
ghost use Rattle.ready_loop.specs.Settling.{IsReady};
ghost use Rattle.std.proofs.Props.{props};
ghost use Rattle.match_sides.specs.Props.{EachIs-prop, DiffersBy-prop};

use definitions::PlayerId;
use grid_world::Session;
use machine_host::Host;
use match_sides::rounds::{begin, loop_of, play_round};
use match_sides::texts::script_of;
use memory_host::{Machine, MemoryHost};
use old_log::resume_from;
use peer_core::Peer;
use pilots::{ScriptPilot, generator_of};
use rand_pcg::Pcg32;
use ready_loop::{Ended, Loop};
use socket_station::Station;
use station_mio::MioStation;
use std::alloc::Global;
use std::cell::RefCell;
use std::test::Fail;

/// A loop, its station, and the moves that it plays. It has ended, or it is ready for a round.
#[derive(Drop)]
pub(crate) struct Seated<S: Station> {
    it: Loop,
    station: S,
    pilot: ScriptPilot,
    chance: Pcg32,
    ended: Option<Ended>,
    ghost ready: { ended ≡ None → IsReady (S.history station) it } by { Prim.hlevel (props, EachIs-prop, DiffersBy-prop) },
}

/// A player on the machine, which it begins to use.
pub(crate) type OnMachine<'a> = Seated<MioStation<MemoryHost<'a>>>;

impl<S: Station + Drop> Seated<S> {
    /// Begins a run of this peer.
    pub(crate) fn new(
        alloc: Global,
        peer: Peer,
        roster: &[u8],
        pilot: ScriptPilot,
        station: S,
    ) -> Result<Seated<S>, Fail>
        requires { S.history station ≡ [] }
    {
        let chance = generator_of(u64::from(peer.me()));
        let mut it = loop_of(alloc, peer, roster)?;
        let mut station = station;
        let ended = begin(&mut it, &mut station);
        Ok(Seated {
            it,
            station,
            pilot,
            chance,
            ended,
        })
    }

    /// Plays a round, unless the run has ended.
    pub(crate) fn round(&mut self) {
        match self.ended {
            Some(_) => {}
            None => {
                self.ended = play_round(
                    &mut self.it,
                    &mut self.station,
                    &mut self.pilot,
                    &mut self.chance,
                );
            }
        }
    }

    /// How the run ended, if it did.
    pub(crate) fn ended(&self) -> Option<Ended> {
        self.ended
    }
}

impl<H: Host + Drop> Seated<MioStation<H>> {
    /// The program ends.
    pub(crate) fn finish(self) {
        self.station.finish();
    }
}

/// A player that begins a match on this machine.
pub(crate) fn seat<'a>(
    alloc: Global,
    machine: &'a RefCell<Machine>,
    session: &Session,
    me: PlayerId,
    roster: &[u8],
    moves: &[u8],
) -> Result<OnMachine<'a>, Fail> {
    if me >= session.players() {
        return Err("no player".into());
    }
    let pilot = script_of(alloc, moves, session)?;
    let peer = Peer::new(alloc, session, me)?;
    let station = MioStation::new(MemoryHost::new(machine), alloc)?;
    Seated::new(alloc, peer, roster, pilot, station)
}

/// A player that goes on from a log, on this machine.
pub(crate) fn seat_again<'a>(
    alloc: Global,
    machine: &'a RefCell<Machine>,
    session: &Session,
    me: PlayerId,
    roster: &[u8],
    moves: &[u8],
    log: &[u8],
) -> Result<OnMachine<'a>, Fail> {
    if me >= session.players() {
        return Err("no player".into());
    }
    let pilot = script_of(alloc, moves, session)?;
    let peer = match resume_from(alloc, session, me, log) {
        Err(_) => return Err("no log".into()),
        Ok(resumed) => resumed.peer,
    };
    let station = MioStation::new(MemoryHost::new(machine), alloc)?;
    Seated::new(alloc, peer, roster, pilot, station)
}
