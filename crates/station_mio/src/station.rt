//! The sockets of a machine and a log file as a station.

ghost use Rattle.std.specs.Prelude.{◌≡◌, ◌<◌, ◌++◌, ◌∷◌, [], Bool, false, Option, IfOk, length};
ghost use Rattle.socket_station.specs.Items.{listen_item, log_item, dial_item, poll_item, read_item, write_item, Shut, keep_item, sync_item};
ghost use Rattle.socket_station.specs.declared.answers.Standing.TheVariants.{Open};
ghost use Rattle.socket_station.specs.Standings.{OpensNew, standing_in};
ghost use Rattle.socket_station.specs.Withins.{TakesWithin, GivesWithin};
ghost use Rattle.station_mio.specs.Numbers.{AreUnused};
ghost use Rattle.station_mio.specs.Telling.{Tells};
ghost use Rattle.station_mio.specs.Ending.{Finishes};
ghost use Rattle.station_mio.specs.Nets.{ReadsOn, WritesOn, Listens, Dials, Polls, has_room, shut};
ghost use Rattle.station_mio.specs.Stations.{ListensTo, LogsTo, Keeps, SyncsTo, did_of, did_by};

use crate::sockets::Sockets;
use definitions::PlayerId;
use host_log::HostLog;
use machine_host::{Host, HostFault};
use socket_station::{
    Addr, Dial, Did, ReadyList, SocketId, SocketRead, SocketWrite, Station, StationNotes,
};
use std::alloc::{AllocError, Global};

/// Sockets and a log file of a machine. What its calls answered is told by record.
#[derive(Drop)]
pub struct MioStation<H: Host> {
    sockets: Sockets<H>,
    log: HostLog<H::File, H::Folder>,
    notes: StationNotes,
    ghost unused: { AreUnused sockets.next notes },
    ghost told: { ∥ Tells log.file log.begun sockets.asks notes ∥₁ },
}

/// What is answered to a call of the machine.
fn did_of(made: Result<(), HostFault>) -> Did
    ensures { result ≡ did_of made }
{
    match made {
        Ok(()) => Did::Done,
        Err(_) => Did::Failed,
    }
}

/// What is answered to what was done, or wasn't.
fn did_by(is_done: bool) -> Did
    ensures { result ≡ did_by is_done }
{
    if is_done { Did::Done } else { Did::Failed }
}

impl<H: Host + Drop> MioStation<H> {
    /// Takes all the memory of its tables. The machine is asked for nothing yet.
    pub fn new(host: H, alloc: Global) -> Result<MioStation<H>, AllocError>
        requires unasked { H.history host ≡ [] }
        ensures begins { IfOk result (λ s. ⟦<MioStation<H> as Station>⟧.history s ≡ []) }
        ensures may_begin { IfOk result (λ s. s.log.begun ≡ false) }
    {
        Ok(MioStation {
            sockets: Sockets::new(alloc, host)?,
            log: HostLog::new(),
            notes: StationNotes::new(),
        })
    }

    /// At every moment, what the station's history tells is what the machine answered
    /// (`specs/Telling.antt`). It does nothing.
    pub fn facts(&self)
        ensures { (log : Option Bool) × (begun : Bool) × ∥ Tells log begun self.now.sockets.asks self.now.notes ∥₁ }
    {}

    /// Ends all sockets in good order, so that the others read what was given to them before they
    /// see the end. It waits for them a second at most. For the end of a program: what is read then
    /// nobody wants, and the station is gone. It hands the sockets back, on which nothing is left.
    pub fn finish(self) -> Sockets<H>
        ensures { Finishes self.sockets.stands self.sockets.asks result.asks }
    {
        let mut sockets = self.sockets;
        sockets.finish();
        sockets
    }
}

impl<H: Host + Drop> Station for MioStation<H> {
    ghost history = { λ s. s.notes };

    fn listen(&mut self, addr: Addr) -> Did
        ensures after { self.new.notes ≡ self.old.notes ++ listen_item result addr ∷ [] }
        ensures listens { ListensTo addr result self.old.sockets self.new.sockets }
    {
        let did = did_of(self.sockets.listen(addr));
        self.notes.listen(did, addr);
        did
    }

    fn log_to(&mut self, name: &[u8]) -> Did
        ensures after { self.new.notes ≡ self.old.notes ++ log_item result name.now ∷ [] }
        ensures logs { (is_done : Bool) × LogsTo name.now self.old.log.begun is_done self.old.sockets self.new.sockets × (result ≡ did_by is_done) }
    {
        let did = did_by(self.sockets.begin(&mut self.log, name));
        self.notes.log_to(did, name);
        did
    }

    fn dial(&mut self, player: PlayerId, addr: Addr) -> Dial
        ensures after { self.new.notes ≡ self.old.notes ++ dial_item result player addr ∷ [] }
        ensures fresh { OpensNew self.old.notes (dial_item result player addr) }
        ensures dials { Dials (has_room self.old.sockets) player addr result self.old.sockets self.new.sockets }
    {
        let dial = self.sockets.dial(player, addr);
        self.notes.dial(dial, player, addr);
        dial
    }

    fn poll(&mut self, ready: &mut ReadyList) -> Did
        ensures after { self.new.notes ≡ self.old.notes ++ poll_item result ready.new ∷ [] }
        ensures fresh { OpensNew self.old.notes (poll_item result ready.new) }
        ensures polls { Polls result ready.new self.old.sockets self.new.sockets }
    {
        let did = self.sockets.poll(ready);
        self.notes.poll(did, ready.as_slice());
        did
    }

    fn read(&mut self, socket: SocketId, buf: &mut [u8]) -> SocketRead
        requires some { 0 < length buf.old }
        requires is_open { standing_in self.old.notes socket ≡ Open }
        ensures within { TakesWithin result buf.new }
        ensures after { self.new.notes ≡ self.old.notes ++ read_item socket result buf.new ∷ [] }
        ensures reads { ReadsOn socket result buf.new self.old.sockets self.new.sockets }
    {
        let read = self.sockets.read(socket, buf);
        self.notes.read(socket, read, buf);
        read
    }

    fn write(&mut self, socket: SocketId, bytes: &[u8]) -> SocketWrite
        requires is_open { standing_in self.old.notes socket ≡ Open }
        ensures within { GivesWithin result bytes.now }
        ensures after { self.new.notes ≡ self.old.notes ++ write_item socket result bytes.now ∷ [] }
        ensures writes { WritesOn socket result bytes.now self.old.sockets self.new.sockets }
    {
        let write = self.sockets.write(socket, bytes);
        self.notes.write(socket, write, bytes);
        write
    }

    fn shut(&mut self, socket: SocketId)
        requires is_open { standing_in self.old.notes socket ≡ Open }
        ensures after { self.new.notes ≡ self.old.notes ++ Shut socket ∷ [] }
        ensures shuts { self.new.sockets ≡ shut socket self.old.sockets }
    {
        self.sockets.shut(socket);
        self.notes.shut(socket);
    }

    fn keep(&mut self, bytes: &[u8]) -> Did
        ensures after { self.new.notes ≡ self.old.notes ++ keep_item result bytes.now ∷ [] }
        ensures keeps { (is_done : Bool) × Keeps bytes.now self.old.log.file is_done self.old.sockets self.new.sockets × (result ≡ did_by is_done) }
    {
        let did = did_by(self.sockets.append(&mut self.log, bytes));
        self.notes.keep(did, bytes);
        did
    }

    fn sync(&mut self) -> Did
        ensures after { self.new.notes ≡ self.old.notes ++ sync_item result ∷ [] }
        ensures syncs { (is_done : Bool) × SyncsTo self.old.log.file is_done self.old.sockets self.new.sockets × (result ≡ did_by is_done) }
    {
        let did = did_by(self.sockets.sync(&mut self.log));
        self.notes.sync(did);
        did
    }
}
