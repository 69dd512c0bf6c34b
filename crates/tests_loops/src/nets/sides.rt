//! A side of a match: a loop and its station.

ghost use Rattle.std.specs.Prelude.{◌≡◌, [], None, IfOk};
ghost use Rattle.ready_loop.specs.Settling.{IsReady};
ghost use Rattle.std.proofs.Props.{props};
ghost use Rattle.match_sides.specs.Props.{EachIs-prop, DiffersBy-prop};

use crate::nets::heard::Heard;
use bytes::Bytes;
use definitions::PlayerId;
use grid_world::Session;
use match_sides::rounds::{begin, loop_of, play_round};
use memory_station::MemoryStation;
use old_log::resume_from;
use peer_core::Peer;
use pilots::{Pilot, generator_of};
use rand_pcg::Pcg32;
use ready_loop::{Ended, Loop};
use socket_station::SocketId;
use std::alloc::Global;
use std::test::Fail;

/// Which calls of a station are to fail.
#[derive(Clone, Copy)]
pub enum Fails {
    Nothing,
    Call(u32),
    From(u32),
}

/// How many items and how many bytes a station has room for.
#[derive(Clone, Copy)]
pub struct Room {
    pub items: u32,
    pub bytes: u32,
}

/// Room for a match of two over a few turns.
pub const NARROW: Room = Room {
    items: 3_000,
    bytes: 12_000,
};

/// Room for a match in pieces of one byte.
pub const WIDE: Room = Room {
    items: 60_000,
    bytes: 200_000,
};

/// What happens to a socket besides bytes that come.
#[derive(Clone, Copy)]
pub enum SocketEvent {
    /// It ends after what was brought.
    Ends,
    /// The next poll lists it, whatever comes.
    SeemsReady,
}

/// What a side is made of.
#[derive(Clone, Copy)]
pub struct Made<'a> {
    pub session: &'a Session,
    pub me: PlayerId,
    pub roster: &'a [u8],
    /// The generator of its nonces has this number.
    pub seed: u64,
    pub fails: Fails,
    /// A write gives so many bytes at most, and each second one none.
    pub most: Option<usize>,
    pub room: Room,
}

/// A loop and its station. It has ended, or it is ready for a further round.
#[derive(Drop)]
pub struct Player {
    it: Loop,
    station: Heard,
    chance: Pcg32,
    ended: Option<Ended>,
    ghost ready: { ended ≡ None → IsReady station.inner.book.history it } by { Prim.hlevel (props, EachIs-prop, DiffersBy-prop) },
}

/// These calls of the station are to fail.
fn let_fail(station: &mut MemoryStation, fails: Fails)
    requires { station.old.plan.named ≡ [] }
    ensures { station.new.book ≡ station.old.book }
{
    match fails {
        Fails::Nothing => {}
        Fails::Call(number) => station.fail_call(number),
        Fails::From(number) => station.fail_from(number),
    }
}

/// Each write of the station gives so many bytes at most.
fn let_give(station: &mut MemoryStation, most: Option<usize>)
    ensures { station.new.book ≡ station.old.book }
{
    if let Some(most) = most
        && most > 0
    {
        station.most(most);
    }
}

/// A station of which these calls fail.
fn station_of(alloc: Global, made: &Made<'_>) -> Result<Heard, Fail>
    ensures { IfOk result (λ s. s.inner.book.history ≡ []) }
{
    let mut station = MemoryStation::new(alloc, made.room.items, made.room.bytes)?;
    let_fail(&mut station, made.fails);
    let_give(&mut station, made.most);
    Ok(Heard::new(alloc, station))
}

impl Player {
    /// A side of this peer, that begins.
    fn of(alloc: Global, peer: Peer, made: &Made<'_>) -> Result<Player, Fail> {
        let mut it = loop_of(alloc, peer, made.roster)?;
        let mut station = station_of(alloc, made)?;
        let ended = begin(&mut it, &mut station);
        let chance = generator_of(made.seed);
        Ok(Player {
            it,
            station,
            chance,
            ended,
        })
    }

    /// A side that begins anew.
    pub fn new(alloc: Global, made: &Made<'_>) -> Result<Player, Fail> {
        if made.me >= made.session.players() {
            return Err("no player".into());
        }
        let peer = Peer::new(alloc, made.session, made.me)?;
        Player::of(alloc, peer, made)
    }

    /// A side that goes on from a log.
    pub fn resumed(alloc: Global, made: &Made<'_>, log: &[u8]) -> Result<Player, Fail> {
        if made.me >= made.session.players() {
            return Err("no player".into());
        }
        match resume_from(alloc, made.session, made.me, log) {
            Err(_) => Err("no log".into()),
            Ok(resumed) => Player::of(alloc, resumed.peer, made),
        }
    }

    /// Plays a round, unless the run has ended.
    pub fn round<P: Pilot>(&mut self, pilot: &mut P) {
        match self.ended {
            Some(_) => {}
            None => {
                self.ended = play_round(&mut self.it, &mut self.station, pilot, &mut self.chance);
            }
        }
    }

    /// Plays with at most so many polls, unless the run has ended.
    pub fn play<P: Pilot>(&mut self, pilot: &mut P, polls: u64) {
        match self.ended {
            Some(_) => {}
            None => {
                let it = &mut self.it;
                let ended = it.play(&mut self.station, pilot, &mut self.chance, polls);
                self.ended = Some(ended);
            }
        }
    }

    /// How the run ended, if it did.
    pub fn ended(&self) -> Option<Ended> {
        self.ended
    }

    pub fn it(&self) -> &Loop {
        &self.it
    }

    pub fn peer(&self) -> &Peer {
        self.it.peer()
    }

    pub fn station(&self) -> &MemoryStation {
        &self.station.inner
    }

    pub fn heard(&self) -> &Heard {
        &self.station
    }

    /// What a crash leaves of the log now, with this tail.
    pub fn image(&self, alloc: Global, tail: &[u8]) -> Result<Vec<u8>, Fail> {
        let station = &self.station.inner;
        Ok(station.image(alloc, station.items(), tail)?)
    }

    /// A new socket that someone opened to the side.
    pub fn accept(&mut self) -> Option<SocketId> {
        match self.station.inner.bring_socket() {
            None => None,
            Some(socket) => Some(socket),
        }
    }

    /// Brings one piece on the socket, if there is anything in it.
    pub fn bring_piece(
        &mut self,
        alloc: Global,
        socket: SocketId,
        piece: &[u8],
    ) -> Result<(), Fail> {
        if !self.station.inner.is_known(socket) {
            return Err("no socket".into());
        }
        if piece.is_empty() {
            return Ok(());
        }
        let mut bytes = Vec::new(alloc);
        bytes.extend_from_slice(piece)?;
        let Ok(bytes) = Bytes::from_vec(bytes) else {
            return Err("memory".into());
        };
        match self.station.inner.bring(socket, bytes) {
            Ok(()) => Ok(()),
            Err(_) => Err("no room for pieces".into()),
        }
    }

    /// Brings bytes on the socket in pieces of this size, if there are any.
    pub fn bring(
        &mut self,
        alloc: Global,
        socket: SocketId,
        bytes: &[u8],
        size: usize,
    ) -> Result<(), Fail> {
        for piece in bytes.chunks(size.max(1)) {
            self.bring_piece(alloc, socket, piece)?;
        }
        Ok(())
    }

    /// This happens to the socket, if there is one of that number.
    pub fn happen(&mut self, socket: SocketId, event: SocketEvent) {
        let station = &mut self.station.inner;
        if station.is_known(socket) {
            match event {
                SocketEvent::Ends => station.finish(socket),
                SocketEvent::SeemsReady => station.seem_ready(socket),
            }
        }
    }

    /// All that was given on the socket from this byte on.
    pub fn given(&self, alloc: Global, socket: SocketId, at: usize) -> Result<Vec<u8>, Fail> {
        let mut all = Vec::new(alloc);
        let mut buf = [0; 1024];
        let mut from = at;
        for _ in 0..100_000 {
            let count = self.station.inner.given(socket, from, &mut buf);
            if count == 0 {
                break;
            }
            all.extend_from_slice(&buf[..count])?;
            from = from.saturating_add(count);
        }
        Ok(all)
    }
}
