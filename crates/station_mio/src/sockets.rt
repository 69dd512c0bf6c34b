//! The sockets of a station: one that listens, and those that were accepted or dialled.

ghost use Rattle.std.specs.Prelude.{◌≡◌, ◌<◌, ◌++◌, ◌∷◌, [], IfOk, length, is_ok, get_or, max, slice_set, false, true};
ghost use Rattle.socket_station.specs.Withins.{TakesWithin, GivesWithin};
ghost use Rattle.station_mio.specs.Nets.{ReadsOn, fresh, WritesOn, Listens, Dials, DialsAt, DialsNow, WaitsFor, GoesOnIn, AcceptsOne, AcceptsWaiting, AcceptsAll, Lists, Polls, added, has_room, shut};
ghost use Rattle.station_mio.specs.Rows.{stand_of};
ghost use Rattle.station_mio.specs.Asking.{ListensAt, Selects};
ghost use Rattle.station_mio.specs.Waiting.{Ticks, after_by, patience_with};
ghost use Rattle.station_mio.specs.Listing.{seen_of, report_all, listed_all_lost};
ghost use Rattle.station_mio.specs.Ending.{EndsAll, Lingers, Finishes};
ghost use Rattle.host_log.specs.Logs.{LogsTo, Keeps, SyncsTo, logged_on, kept_on, synced_on};
ghost use Rattle.station_mio.specs.Numbers.{OpensBetween, DialsBetween};
ghost use Rattle.machine_host.specs.Asks.{Waited, list_of};
ghost use Rattle.station_mio.specs.declared.pace.TheConstants.{PAUSE};

use crate::accepting::{Outcome, accept};
use crate::backlog::Backlog;
use crate::dialling::{go_on_all, patience_of};
use crate::ending::{drain_all, end_all};
use crate::listing::{has_room, list_all_lost, report_all};
use crate::moving;
use crate::pace::{LINGER, PATIENCE, Pace, after, now};
use crate::rows::{MOST_SOCKETS, Row, Rows};
use crate::streams::connect;
use arrayvec::ArrayVec;
use definitions::PlayerId;
use host_log::HostLog;
use machine_host::{Host, HostFault, MOST_EVENTS};
use socket_station::ready_list::MOST_READY;
use socket_station::{Addr, Dial, Did, Ready, ReadyList, SocketId, SocketRead, SocketWrite};
use std::alloc::{AllocError, Global};
use std::marker::Model;

/// How often the others are waited for at the end, so that nobody holds it up for ever.
pub const MOST_WAITS: u32 = 1_000;

/// Sockets of a machine, and their readiness: one that listens, and at most 512 that were accepted
/// or dialled, each under a number, from 0 on, that no other one has had. It is seen as what the
/// machine was asked, and how each socket stands.
#[derive(Drop)]
pub struct Sockets<H: Host> {
    host: H,
    selector: Option<H::Selector>,
    listener: Option<H::Listener>,
    backlog: Backlog,
    pace: Pace,
    rows: Rows<H::Stream>,
    next: SocketId,
}

impl<H: Host> Model for Sockets<H> {
    ghost use Rattle.std.specs.Prelude.{is_some};
    ghost use Rattle.station_mio.specs.Nets.{Net};

    ghost Value = { Net };

    ghost view = { λ s. record { asks = H.history s.host; selects = is_some s.selector; listens = is_some s.listener; backlog = s.backlog; due = s.pace.due; stands = s.rows; next = s.next } };
}

/// Listens at the address, and has it reported that connections wait.
fn listen_at<H: Host>(
    host: &mut H,
    selector: &mut H::Selector,
    addr: Addr,
) -> Result<H::Listener, HostFault>
    ensures { ListensAt addr (is_ok result) (H.history host.old) (H.history host.new) }
{
    let mut listener = host.listen(addr)?;
    host.watch_listener(selector, &mut listener)?;
    Ok(listener)
}

impl<H: Host + Drop> Sockets<H> {
    /// Takes all the memory, and an error comes where that is wanting. The machine is asked for
    /// nothing yet.
    pub fn new(alloc: Global, host: H) -> Result<Sockets<H>, AllocError>
        ensures { IfOk result (λ s. s ≡ fresh (H.history host)) }
    {
        Ok(Sockets {
            host,
            selector: None,
            listener: None,
            backlog: Backlog::Empty,
            pace: Pace::new(),
            rows: Rows::new(alloc)?,
            next: 0,
        })
    }

    /// Makes the object that readiness is asked of, unless it stands.
    fn select(&mut self)
        ensures asked { Selects self.old.selects self.new.selects self.old.asks self.new.asks }
        ensures same { self.new ≡ record self.old { asks = self.new.asks; selects = self.new.selects } }
    {
        if self.selector.is_none() {
            self.selector = match self.host.select() {
                Ok(made) => Some(made),
                Err(_) => None,
            };
        }
    }

    /// Whether that stands.
    fn selects(&self) -> bool
        ensures { result ≡ self.now.selects }
    {
        self.selector.is_some()
    }

    /// Listens at the address, where readiness can be asked of.
    fn listen_now(&mut self, addr: Addr) -> Result<(), HostFault>
        requires selects { self.old.selects ≡ true }
        ensures asked { ListensAt addr (is_ok result) self.old.asks self.new.asks }
        ensures same { self.new ≡ record self.old { asks = self.new.asks; listens = self.new.listens } }
        ensures listens { is_ok result ≡ true → self.new.listens ≡ true }
        ensures kept { is_ok result ≡ false → self.new.listens ≡ self.old.listens }
    {
        let Some(selector) = &mut self.selector else {
            return Err(HostFault::Other);
        };
        match listen_at(&mut self.host, selector, addr) {
            Err(fault) => Err(fault),
            Ok(listener) => {
                self.listener = Some(listener);
                Ok(())
            }
        }
    }

    /// Accepts connections at this address from now on. The machine's fault comes where it refuses
    /// that.
    pub fn listen(&mut self, addr: Addr) -> Result<(), HostFault>
        ensures { Listens addr result self.old self.new }
    {
        self.select();
        if !self.selects() {
            return Err(HostFault::Other);
        }
        self.listen_now(addr)
    }

    /// Takes what came on a socket. One that ends or fails is closed, and after that, as on a
    /// number that no socket has, it fails.
    pub fn read(&mut self, socket: SocketId, buf: &mut [u8]) -> SocketRead
        requires { 0 < length buf.old }
        ensures within { TakesWithin result buf.new }
        ensures reads { ReadsOn socket result buf.new self.old self.new }
        ensures next { self.new.next ≡ self.old.next }
    {
        moving::read(&mut self.host, &mut self.rows, socket, buf)
    }

    /// Gives the first of these bytes on a socket. One that fails is closed, and after that, as on
    /// a number that no socket has, it fails.
    pub fn write(&mut self, socket: SocketId, bytes: &[u8]) -> SocketWrite
        ensures within { GivesWithin result bytes.now }
        ensures writes { WritesOn socket result bytes.now self.old self.new }
        ensures next { self.new.next ≡ self.old.next }
    {
        moving::write(&mut self.host, &mut self.rows, socket, bytes)
    }

    /// Closes a socket, if there is one of this number.
    pub fn shut(&mut self, socket: SocketId)
        ensures shuts { self.new ≡ shut socket self.old }
        ensures next { self.new.next ≡ self.old.next }
    {
        moving::shut(&mut self.host, &mut self.rows, socket);
    }

    /// Whether there is room for one more socket, and a number.
    fn has_room(&self) -> bool
        ensures { result ≡ has_room self.now }
    {
        self.rows.len() < MOST_SOCKETS && self.next < SocketId::MAX
    }

    /// Adds a socket with the next number, and says which that is.
    fn add(&mut self, row: Row<H::Stream>) -> SocketId
        requires { has_room self.old ≡ true }
        ensures number { result ≡ self.old.next }
        ensures added { self.new ≡ added (stand_of H.Stream.number row) self.old }
    {
        let number = self.next;
        self.rows.push(row);
        self.next = number + 1;
        number
    }

    /// Dials an address now.
    fn dial_at(&mut self, addr: Addr, now: u64) -> Dial
        requires room { has_room self.old ≡ true }
        requires selects { self.old.selects ≡ true }
        ensures dials { DialsAt now addr result self.old self.new }
        ensures numbers { DialsBetween self.old.next self.new.next result }
    {
        let Some(selector) = &mut self.selector else {
            return Dial::Failed;
        };
        match connect(&mut self.host, selector, self.next, addr) {
            None => Dial::Failed,
            Some(stream) => {
                let row = Row::Dialled(stream, after(now, PATIENCE));
                Dial::Socket(self.add(row))
            }
        }
    }

    /// Dials an address now, where readiness can be asked of.
    fn dial_now(&mut self, addr: Addr, now: u64) -> Dial
        requires room { has_room self.old ≡ true }
        ensures dials { DialsNow now addr result self.old self.new }
        ensures numbers { DialsBetween self.old.next self.new.next result }
    {
        self.select();
        if !self.selects() {
            return Dial::Failed;
        }
        self.dial_at(addr, now)
    }

    /// The machine's time.
    fn time(&mut self) -> u64
        ensures ticks { Ticks self.old.asks self.new.asks result }
        ensures same { self.new ≡ record self.old { asks = self.new.asks } }
    {
        now(&mut self.host)
    }

    /// When a dial of the player is due that is asked for at this time.
    fn due(&mut self, player: PlayerId, now: u64) -> u64
        ensures due { result ≡ max (get_or self.old.due player 0) now }
        ensures same { self.new ≡ record self.old { due = slice_set self.old.due player (after_by result PAUSE) } }
    {
        self.pace.take(player, now)
    }

    /// Opens a socket to the address: at once, or, where that player was dialled within the last
    /// tenth of a second, when that is over.
    pub fn dial(&mut self, player: PlayerId, addr: Addr) -> Dial
        ensures dials { Dials (has_room self.old) player addr result self.old self.new }
        ensures numbers { DialsBetween self.old.next self.new.next result }
    {
        if !self.has_room() {
            return Dial::Failed;
        }
        let now = self.time();
        let due = self.due(player, now);
        if now < due {
            let row = Row::Due(self.next, addr, due);
            return Dial::Socket(self.add(row));
        }
        self.dial_now(addr, now)
    }

    /// How long the next poll may wait, in milliseconds.
    fn patience(&self, now: u64) -> u64
        ensures { result ≡ patience_with self.now.backlog now self.now.stands }
    {
        match self.backlog {
            Backlog::Waiting => 0,
            Backlog::Empty => patience_of(&self.rows, now),
            Backlog::Refused => patience_of(&self.rows, now),
        }
    }

    /// Waits so many milliseconds at most.
    fn wait_at_most(
        &mut self,
        millis: u64,
        tokens: &mut ArrayVec<u64, MOST_EVENTS>,
    ) -> Result<(), HostFault>
        requires selects { self.old.selects ≡ true }
        ensures { self.new ≡ record self.old { asks = self.old.asks ++ Waited millis (list_of result tokens.new.items) ∷ [] } }
    {
        let Some(selector) = &mut self.selector else {
            return Err(HostFault::Other);
        };
        self.host.wait(selector, millis, tokens)
    }

    /// Waits until something is ready, or the time is over, and gives the tokens of what is.
    fn wait(&mut self, tokens: &mut ArrayVec<u64, MOST_EVENTS>) -> Result<(), HostFault>
        ensures waits { WaitsFor result tokens.new.items self.old self.new }
        ensures next { self.new.next ≡ self.old.next }
        ensures selects { IfOk result (λ u. self.new.selects ≡ true) }
    {
        self.select();
        if !self.selects() {
            return Err(HostFault::Other);
        }
        let now = self.time();
        let patience = self.patience(now);
        self.wait_at_most(patience, tokens)
    }

    /// Takes in the tokens of what is ready.
    fn see(&mut self, tokens: &[u64], ready: &mut ReadyList)
        ensures seen { seen_of self.new.stands self.new.backlog ready.new ≡ report_all (seen_of self.old.stands self.old.backlog ready.old) tokens.now }
        ensures same { self.new ≡ record self.old { stands = self.new.stands; backlog = self.new.backlog } }
    {
        report_all(&mut self.rows, &mut self.backlog, ready, tokens);
    }

    /// Goes on with all sockets that are due.
    fn go_on(&mut self)
        requires selects { self.old.selects ≡ true }
        ensures { GoesOnIn self.old self.new }
    {
        let now = self.time();
        let Some(selector) = &mut self.selector else {
            return;
        };
        go_on_all(&mut self.host, selector, &mut self.rows, now);
    }

    /// Lists the sockets that are lost.
    fn list_lost(&self, ready: &mut ReadyList)
        ensures { ready.new ≡ listed_all_lost ready.old self.now.stands }
    {
        list_all_lost(&self.rows, ready);
    }

    /// A new socket for the next connection that waits.
    fn accept_one(&mut self) -> Option<SocketId>
        requires selects { self.old.selects ≡ true }
        ensures { AcceptsOne result self.old self.new }
    {
        if !self.has_room() {
            self.backlog = Backlog::Refused;
            return None;
        }
        let Some(selector) = &mut self.selector else {
            return None;
        };
        let Some(listener) = &mut self.listener else {
            self.backlog = Backlog::Empty;
            return None;
        };
        match accept(&mut self.host, selector, listener, self.next) {
            Outcome::Came(stream) => Some(self.add(Row::Up(stream))),
            Outcome::Nobody => {
                self.backlog = Backlog::Empty;
                None
            }
            Outcome::Refused => {
                self.backlog = Backlog::Refused;
                None
            }
        }
    }

    /// Lists new sockets for the connections that wait, as many as there is room for.
    fn accept_waiting(&mut self, ready: &mut ReadyList)
        requires selects { self.old.selects ≡ true }
        ensures { AcceptsWaiting ready.old ready.new self.old self.new }
    {
        for _ in 0..MOST_READY {
            if !has_room(ready) {
                self.backlog = Backlog::Waiting;
                return;
            }
            match self.accept_one() {
                None => return,
                Some(number) => ready.push(Ready::Opened(number)),
            }
        }
        self.backlog = Backlog::Waiting;
    }

    /// Lists new sockets for the connections that wait, unless none did when it was last looked.
    fn accept_all(&mut self, ready: &mut ReadyList)
        requires selects { self.old.selects ≡ true }
        ensures { AcceptsAll self.old.backlog ready.old ready.new self.old self.new }
    {
        match self.backlog {
            Backlog::Empty => {}
            Backlog::Waiting => self.accept_waiting(ready),
            Backlog::Refused => self.accept_waiting(ready),
        }
    }

    /// Lists what is ready, goes on with what is due, and lists what is lost and what is new.
    fn list(&mut self, tokens: &[u64], ready: &mut ReadyList)
        requires selects { self.old.selects ≡ true }
        requires none { ready.old ≡ [] }
        ensures { Lists tokens.now ready.new self.old self.new }
    {
        self.see(tokens, ready);
        self.go_on();
        self.list_lost(ready);
        self.accept_all(ready);
    }

    /// Waits at most a tenth of a second, and lists new sockets and those that may be ready.
    pub fn poll(&mut self, ready: &mut ReadyList) -> Did
        ensures polls { Polls result ready.new self.old self.new }
        ensures opens { OpensBetween self.old.next self.new.next ready.new }
    {
        ready.clear();
        let mut tokens = ArrayVec::new();
        match self.wait(&mut tokens) {
            Err(_) => Did::Failed,
            Ok(()) => {
                self.list(tokens.as_slice(), ready);
                Did::Done
            }
        }
    }

    /// Begins the log, a new file at this path, unless one was begun.
    pub(crate) fn begin(&mut self, log: &mut HostLog<H::File, H::Folder>, path: &[u8]) -> bool
        ensures asked { LogsTo path.now log.old.begun result self.old.asks self.new.asks }
        ensures stands { log.new ≡ logged_on result log.old }
        ensures same { self.new ≡ record self.old { asks = self.new.asks } }
    {
        log.begin(&mut self.host, path)
    }

    /// Appends all these bytes to the log. Where that fails, nothing is appended any more.
    pub(crate) fn append(&mut self, log: &mut HostLog<H::File, H::Folder>, bytes: &[u8]) -> bool
        ensures asked { Keeps bytes.now log.old.file result self.old.asks self.new.asks }
        ensures stands { log.new ≡ kept_on result log.old }
        ensures same { self.new ≡ record self.old { asks = self.new.asks } }
    {
        log.append(&mut self.host, bytes)
    }

    /// What was appended to the log stays after a crash of the machine. Where that fails, nothing
    /// is appended or synced any more.
    pub(crate) fn sync(&mut self, log: &mut HostLog<H::File, H::Folder>) -> bool
        ensures asked { SyncsTo log.old.file result self.old.asks self.new.asks }
        ensures stands { log.new ≡ synced_on result log.old }
        ensures same { self.new ≡ record self.old { asks = self.new.asks } }
    {
        log.sync(&mut self.host)
    }

    /// Listens no more, and says to the others that no more is sent.
    fn end_writes(&mut self)
        ensures asked { EndsAll self.old.stands self.old.asks self.new.asks }
        ensures listens { self.new.listens ≡ false }
        ensures next { self.new.next ≡ self.old.next }
    {
        self.listener = None;
        self.backlog = Backlog::Empty;
        end_all(&mut self.host, &mut self.rows);
    }

    /// Reads what came on all sockets, and closes those on which nothing more comes.
    fn drain(&mut self)
        ensures asked { Lingers self.old.asks self.new.asks }
        ensures next { self.new.next ≡ self.old.next }
    {
        drain_all(&mut self.host, &mut self.rows);
    }

    /// One turn of the end: what came is read, and where something may still come it waits for
    /// more. It says whether it is to go on.
    fn linger(&mut self, until: u64) -> bool
        ensures asked { Lingers self.old.asks self.new.asks }
        ensures next { self.new.next ≡ self.old.next }
    {
        self.drain();
        if self.rows.len() == 0 {
            return false;
        }
        let now = self.time();
        if until <= now {
            return false;
        }
        let mut tokens = ArrayVec::new();
        self.wait(&mut tokens).is_ok()
    }

    /// Sends no more, and waits until the others have ended too, so that what was given is read by
    /// them. That takes a second at most.
    pub fn finish(&mut self)
        ensures finishes { Finishes self.old.stands self.old.asks self.new.asks }
        ensures next { self.new.next ≡ self.old.next }
    {
        self.end_writes();
        let until = after(self.time(), LINGER);
        for _ in 0..MOST_WAITS {
            if !self.linger(until) {
                return;
            }
        }
    }
}
