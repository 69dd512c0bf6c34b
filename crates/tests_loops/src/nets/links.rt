//! A network between the sides of a match: it carries what is given on one socket to the socket at
//! its other end.

use crate::nets::sides::{Player, SocketEvent};
use definitions::PlayerId;
use pilots::Pilot;
use ready_loop::Ended;
use socket_station::SocketId;
use std::alloc::Global;
use std::test::Fail;

/// A link: a socket that one side dialled, and the one that the other side accepted for it.
#[derive(Clone, Copy)]
pub struct Wire {
    pub from: PlayerId,
    pub to: PlayerId,
    pub near: SocketId,
    pub far: SocketId,
    /// How many bytes were carried there and back.
    pub there: usize,
    pub back: usize,
    /// Whether the far end was open yet.
    pub is_met: bool,
    /// Whether each end was told that the other one is closed.
    pub is_over: bool,
}

/// The sides of a match by player, and their links, also those that are lost.
#[derive(Drop)]
pub struct Net {
    pub sides: Vec<Player>,
    pub wires: Vec<Wire>,
    /// What is carried comes in pieces of so many bytes.
    pub size: usize,
}

impl Net {
    pub fn new(alloc: Global, size: usize) -> Net {
        let sides = Vec::new(alloc);
        let wires = Vec::new(alloc);
        Net { sides, wires, size }
    }

    /// Adds the side of the next player.
    pub fn add(&mut self, side: Player) -> Result<(), Fail> {
        self.sides.push(side)?;
        Ok(())
    }

    pub fn side(&self, player: PlayerId) -> Result<&Player, Fail> {
        match self.sides.get(usize::from(player)) {
            Some(side) => Ok(side),
            None => Err("no side".into()),
        }
    }

    /// The side of the player, to be changed, if there is one.
    fn side_mut(&mut self, player: PlayerId) -> Option<&mut Player> {
        self.sides.get_mut(usize::from(player))
    }

    /// Lets the player's loop play a round.
    pub fn round<P: Pilot>(&mut self, player: PlayerId, pilot: &mut P) {
        if let Some(side) = self.side_mut(player) {
            side.round(pilot);
        }
    }

    /// A new socket that someone opened to the player.
    fn accept(&mut self, player: PlayerId) -> Option<SocketId> {
        match self.side_mut(player) {
            None => None,
            Some(side) => side.accept(),
        }
    }

    /// Brings bytes on a socket of the player.
    fn bring(
        &mut self,
        alloc: Global,
        player: PlayerId,
        socket: SocketId,
        bytes: &[u8],
    ) -> Result<(), Fail> {
        let size = self.size;
        match self.side_mut(player) {
            None => Err("no side".into()),
            Some(side) => side.bring(alloc, socket, bytes, size),
        }
    }

    /// This happens to a socket of the player.
    fn happen(&mut self, player: PlayerId, socket: SocketId, event: SocketEvent) {
        if let Some(side) = self.side_mut(player) {
            side.happen(socket, event);
        }
    }

    /// This happens to both sockets of a link.
    fn happen_to(&mut self, wire: Wire, event: SocketEvent) {
        self.happen(wire.from, wire.near, event);
        self.happen(wire.to, wire.far, event);
    }

    /// How the player's run ended, if it did.
    pub fn ended(&self, player: PlayerId) -> Option<Ended> {
        self.sides.get(usize::from(player))?.ended()
    }

    /// Whether a socket that was dialled has a link.
    fn has_wire(&self, from: PlayerId, near: SocketId) -> bool {
        self.wires
            .iter()
            .any(|wire| wire.from == from && wire.near == near)
    }

    /// Makes a link of the socket that one side dialled last for the other, if it has none.
    fn connect(&mut self, from: PlayerId, to: PlayerId) -> Result<(), Fail> {
        let Some(near) = self.side(from)?.station().dialled(to) else {
            return Ok(());
        };
        if self.has_wire(from, near) {
            return Ok(());
        }
        let far = self.accept(to).ok_or("sockets")?;
        let wire = Wire {
            from,
            to,
            near,
            far,
            there: 0,
            back: 0,
            is_met: false,
            is_over: false,
        };
        self.wires.push(wire)?;
        Ok(())
    }

    /// Makes a link of each socket that was dialled since.
    pub fn connect_all(&mut self) -> Result<(), Fail> {
        let players = self.sides.len().min(16) as PlayerId;
        for from in 0..players {
            for to in 0..players {
                self.connect(from, to)?;
            }
        }
        Ok(())
    }

    /// Carries what was given on one socket from a byte on to another one, and says up to which
    /// byte.
    fn pass(
        &mut self,
        alloc: Global,
        from: (PlayerId, SocketId),
        to: (PlayerId, SocketId),
        at: usize,
    ) -> Result<usize, Fail> {
        let bytes = self.side(from.0)?.given(alloc, from.1, at)?;
        self.bring(alloc, to.0, to.1, &bytes)?;
        Ok(at.saturating_add(bytes.len()))
    }

    /// Carries what was given on the link of this place towards its far end.
    pub fn carry_there(&mut self, alloc: Global, place: usize) -> Result<(), Fail> {
        let Some(wire) = self.wires.get(place).copied() else {
            return Ok(());
        };
        let there = self.pass(
            alloc,
            (wire.from, wire.near),
            (wire.to, wire.far),
            wire.there,
        )?;
        self.put(place, Wire { there, ..wire });
        Ok(())
    }

    /// The same towards the end that was dialled.
    pub fn carry_back(&mut self, alloc: Global, place: usize) -> Result<(), Fail> {
        let Some(wire) = self.wires.get(place).copied() else {
            return Ok(());
        };
        let back = self.pass(
            alloc,
            (wire.to, wire.far),
            (wire.from, wire.near),
            wire.back,
        )?;
        self.put(place, Wire { back, ..wire });
        Ok(())
    }

    /// Says these bytes on the link of this place in the name of its far end.
    pub fn say_back(&mut self, alloc: Global, place: usize, bytes: &[u8]) -> Result<(), Fail> {
        let Some(wire) = self.wires.get(place).copied() else {
            return Ok(());
        };
        self.bring(alloc, wire.from, wire.near, bytes)?;
        let back = wire.back.saturating_add(bytes.len());
        self.put(place, Wire { back, ..wire });
        Ok(())
    }

    fn put(&mut self, place: usize, wire: Wire) {
        if place < self.wires.len() {
            self.wires[place] = wire;
        }
    }

    /// Tells each end of the link that it ends, if one of them is closed.
    fn end(&mut self, place: usize) -> Result<(), Fail> {
        let Some(mut wire) = self.wires.get(place).copied() else {
            return Ok(());
        };
        let near = self.side(wire.from)?.station().is_open(wire.near);
        let far = self.side(wire.to)?.station().is_open(wire.far);
        wire.is_met = wire.is_met || far;
        self.put(place, wire);
        if !near || wire.is_met && !far {
            self.cut(place);
        }
        Ok(())
    }

    /// The link of this place is lost: both ends see its end after what was carried.
    pub fn cut(&mut self, place: usize) {
        let Some(wire) = self.wires.get(place).copied() else {
            return;
        };
        if !wire.is_over {
            self.happen_to(wire, SocketEvent::Ends);
            self.put(
                place,
                Wire {
                    is_over: true,
                    ..wire
                },
            );
        }
    }

    /// Carries what was given on the link of this place both ways, unless it is lost.
    fn carry(&mut self, alloc: Global, place: usize) -> Result<(), Fail> {
        match self.wires.get(place).copied() {
            Some(wire) if !wire.is_over => {
                self.carry_there(alloc, place)?;
                self.carry_back(alloc, place)?;
                self.end(place)
            }
            _ => Ok(()),
        }
    }

    /// Carries all that was given on links that aren't lost, and makes links of what was dialled.
    pub fn carry_all(&mut self, alloc: Global) -> Result<(), Fail> {
        self.connect_all()?;
        for place in 0..self.wires.len() {
            self.carry(alloc, place)?;
        }
        Ok(())
    }

    /// Each socket of a link seems ready.
    pub fn seem_ready(&mut self) {
        for place in 0..self.wires.len() {
            if let Some(wire) = self.wires.get(place).copied() {
                self.happen_to(wire, SocketEvent::SeemsReady);
            }
        }
    }

    /// Whether all runs have ended.
    pub fn is_over(&self) -> bool {
        self.sides.iter().all(|side| side.ended().is_some())
    }

    /// Whether all runs are done.
    pub fn is_done(&self) -> bool {
        self.sides
            .iter()
            .all(|side| side.ended() == Some(Ended::Done))
    }
}
