//! A machine in memory: its clock, its sockets, its datagrams, and its one file.

ghost use Rattle.std.specs.Prelude.{◌≡◌, ◌≤◌, ◌<◌, ◌++◌, ◌⊎◌, [], true, Some, IfOk, IfSome, length, take};

use crate::lines::Line;
use crate::log_file::LogFile;
use crate::mailbox::Mailbox;
use crate::refusals::{Call, Refusal, refusal_of};
use machine_host::{Answer, HostFault, LISTENER, MAILBOX, Tokens};
use socket_station::{Addr, SocketId};
use std::alloc::{AllocError, Global};

/// What a host is asked of, and what a test does to it from the other side.
#[derive(Drop)]
pub struct Machine {
    alloc: Global,
    /// The milliseconds since its start.
    pub millis: u64,
    /// How many connections wait to be accepted.
    pub waiting: u32,
    /// Whether one came that no wait has reported.
    pub is_knocked: bool,
    /// Which selector's waits report that, if any do.
    pub watcher: Option<u32>,
    /// How many selectors were made. Each goes by the number of those before it.
    pub selectors: u32,
    /// The sockets, in the order in which they were opened.
    pub lines: Vec<Line>,
    /// The names of the files that are there.
    pub names: Vec<Vec<u8>>,
    /// The file that was created last.
    pub log: LogFile,
    /// What datagrams are received and sent by.
    pub mailbox: Mailbox,
    /// Which calls are refused.
    pub refusals: Vec<Refusal>,
}

impl Machine {
    /// It stands at its start, and has neither sockets nor files. It takes no memory yet.
    pub fn new(alloc: Global) -> Machine
        ensures lines { result.lines.items ≡ [] }
        ensures names { result.names.items ≡ [] }
        ensures log { result.log.bytes.items ≡ [] }
    {
        Machine {
            alloc,
            millis: 0,
            waiting: 0,
            is_knocked: false,
            watcher: None,
            selectors: 0,
            lines: Vec::new(alloc),
            names: Vec::new(alloc),
            log: LogFile::new(alloc),
            mailbox: Mailbox::new(alloc),
            refusals: Vec::new(alloc),
        }
    }

    /// Of the calls of this kind from now on, the one of this number, from 1 on, answers this
    /// fault. An error comes where memory is wanting.
    pub fn refuse(&mut self, call: Call, turn: u32, fault: HostFault) -> Result<(), AllocError> {
        self.refusals.push(Refusal { call, turn, fault })?;
        Ok(())
    }

    /// One more connection waits to be accepted.
    pub fn knock(&mut self)
        ensures { self.new.is_knocked ≡ true }
    {
        self.waiting = self.waiting.saturating_add(1);
        self.is_knocked = true;
    }

    /// A file of this name is there. An error comes where memory is wanting.
    pub fn have(&mut self, name: &[u8]) -> Result<(), AllocError> {
        let mut kept = Vec::with_capacity(self.alloc, name.len())?;
        kept.extend_from_slice(name)?;
        self.names.push(kept)?;
        Ok(())
    }

    /// The place of the socket of this number, if there is one. A number may be used again where
    /// a host closed its socket at once: that of the last one counts.
    fn place(&self, number: SocketId) -> Option<usize>
        ensures { IfSome result (λ place. place < length self.now.lines.items) }
    {
        let mut found = None;
        for place in 0..self.lines.len() {
            if self.lines[place].number == number {
                found = Some(place);
            }
        }
        found
    }

    /// The socket of this number, if there is one, as its other side sees it.
    pub fn line(&mut self, number: SocketId) -> Option<&mut Line> {
        let place = self.place(number)?;
        Some(&mut self.lines[place])
    }

    /// A call of this kind is made. An error says that it is refused.
    pub(crate) fn ask(&mut self, call: Call) -> Answer<()>
        ensures { self.new ≡ record self.old { refusals = self.new.refusals } }
    {
        match refusal_of(&mut self.refusals, call) {
            None => Ok(()),
            Some(fault) => Err(fault),
        }
    }

    /// What the clock says.
    pub(crate) fn clock(&mut self) -> Answer<u64>
        ensures { IfOk result (λ millis. millis ≡ self.old.millis) }
    {
        self.ask(Call::Clock)?;
        Ok(self.millis)
    }

    /// The number of a new selector.
    pub(crate) fn select(&mut self) -> Answer<u32> {
        self.ask(Call::Select)?;
        let number = self.selectors;
        self.selectors = number.saturating_add(1);
        Ok(number)
    }

    /// This selector's waits report from now on that connections wait.
    pub(crate) fn watch_listener(&mut self, selector: u32) -> Answer<()> {
        self.ask(Call::WatchListener)?;
        self.watcher = Some(selector);
        Ok(())
    }

    /// A new socket under this number.
    fn open(&mut self, number: SocketId, addr: Option<Addr>) -> Answer<()>
        ensures { self.new ≡ record self.old { lines = self.new.lines } }
    {
        let line = Line::new(self.alloc, number, addr);
        match self.lines.push(line) {
            Ok(()) => Ok(()),
            Err(_) => Err(HostFault::Other),
        }
    }

    /// The next connection that waits, under this number.
    pub(crate) fn accept(&mut self, number: SocketId) -> Answer<()> {
        self.ask(Call::Accept)?;
        if self.waiting == 0 {
            return Err(HostFault::WouldBlock);
        }
        self.open(number, None)?;
        self.waiting -= 1;
        Ok(())
    }

    /// A socket under this number that stands once the test has it answered.
    pub(crate) fn connect(&mut self, number: SocketId, addr: Addr) -> Answer<()> {
        self.ask(Call::Connect)?;
        self.open(number, Some(addr))
    }

    /// This selector's waits report the readiness of the socket from now on.
    pub(crate) fn watch(&mut self, selector: u32, number: SocketId) -> Answer<()> {
        self.ask(Call::Watch)?;
        match self.place(number) {
            None => Err(HostFault::Other),
            Some(place) => {
                self.lines[place].watcher = Some(selector);
                Ok(())
            }
        }
    }

    /// Lists what became ready of what this selector watches. Where nothing did, so many milliseconds
    /// go by.
    pub(crate) fn wait(&mut self, selector: u32, millis: u64, tokens: &mut Tokens) -> Answer<()>
        ensures { IfOk result (λ u. (self.new.millis ≡ self.old.millis) ⊎ (tokens.new.items ≡ [])) }
    {
        self.ask(Call::Wait)?;
        tokens.clear();
        if self.watcher == Some(selector) && self.is_knocked {
            self.is_knocked = false;
            tokens.push(LISTENER);
        }
        if self.mailbox.watcher == Some(selector) && self.mailbox.is_ready {
            self.mailbox.is_ready = false;
            tokens.push(MAILBOX);
        }
        for line in self.lines.iter_mut() {
            if line.watcher == Some(selector) && line.is_ready && !tokens.is_full() {
                line.is_ready = false;
                tokens.push(line.number as u64);
            }
        }
        if tokens.is_empty() {
            self.millis = self.millis.saturating_add(millis);
        }
        Ok(())
    }

    /// Takes bytes that came on the socket.
    pub(crate) fn read(&mut self, number: SocketId, buf: &mut [u8]) -> Answer<usize>
        ensures { IfOk result (λ count. count ≤ length buf.new) }
    {
        self.ask(Call::Read)?;
        match self.place(number) {
            None => Err(HostFault::Other),
            Some(place) => self.lines[place].read(buf),
        }
    }

    /// Gives the first of these bytes on the socket.
    pub(crate) fn write(&mut self, number: SocketId, bytes: &[u8]) -> Answer<usize>
        ensures { IfOk result (λ count. count ≤ length bytes.now) }
    {
        self.ask(Call::Write)?;
        match self.place(number) {
            None => Err(HostFault::Other),
            Some(place) => self.lines[place].write(bytes),
        }
    }

    /// No more is given on the socket.
    pub(crate) fn end_writes(&mut self, number: SocketId) -> Answer<()> {
        self.ask(Call::EndWrites)?;
        match self.place(number) {
            None => Err(HostFault::Other),
            Some(place) => {
                self.lines[place].writes_ended = true;
                Ok(())
            }
        }
    }

    /// The socket is closed.
    pub(crate) fn close(&mut self, number: SocketId) {
        if let Some(place) = self.place(number) {
            self.lines[place].is_closed = true;
            self.lines[place].watcher = None;
        }
    }

    /// Whether a file of this name is there.
    fn is_there(&self, name: &[u8]) -> bool {
        for kept in self.names.as_slice() {
            if kept.as_slice() == name {
                return true;
            }
        }
        false
    }

    /// A new file of this name, with this mode.
    pub(crate) fn create(&mut self, name: &[u8], mode: u32) -> Answer<()> {
        self.ask(Call::Create)?;
        if self.is_there(name) {
            return Err(HostFault::Exists);
        }
        if self.have(name).is_err() {
            return Err(HostFault::Other);
        }
        self.log.begin(mode);
        Ok(())
    }

    /// Appends the first of these bytes to the file.
    pub(crate) fn append(&mut self, bytes: &[u8]) -> Answer<usize>
        ensures within { IfOk result (λ count. count ≤ length bytes.now) }
        ensures bytes { IfOk result (λ count. self.new.log.bytes.items ≡ self.old.log.bytes.items ++ take count bytes.now) }
    {
        self.ask(Call::Append)?;
        self.log.append(bytes)
    }

    /// What stands in the file stays after a crash.
    pub(crate) fn sync_file(&mut self) -> Answer<()>
        ensures { IfOk result (λ u. self.new.log.synced.items ≡ self.old.log.bytes.items) }
    {
        self.ask(Call::SyncFile)?;
        self.log.sync()
    }

    /// So does that there is such a file.
    pub(crate) fn sync_folder(&mut self) -> Answer<()>
        ensures { IfOk result (λ u. self.new.log.is_there ≡ true) }
    {
        self.ask(Call::SyncFolder)?;
        self.log.is_there = true;
        Ok(())
    }

    /// Receives and sends datagrams at the address from now on.
    pub(crate) fn bind(&mut self, addr: Addr) -> Answer<()>
        ensures { IfOk result (λ u. self.new.mailbox.addr ≡ Some addr) }
    {
        self.ask(Call::Bind)?;
        self.mailbox.begin(addr);
        Ok(())
    }

    /// This selector's waits report from now on that datagrams may be there.
    pub(crate) fn watch_mailbox(&mut self, selector: u32) -> Answer<()> {
        self.ask(Call::WatchMailbox)?;
        self.mailbox.watcher = Some(selector);
        Ok(())
    }

    /// Takes the next datagram, or as many of its first bytes as fit.
    pub(crate) fn receive(&mut self, buf: &mut [u8]) -> Answer<usize>
        ensures { IfOk result (λ count. count ≤ length buf.new) }
    {
        self.ask(Call::Receive)?;
        self.mailbox.receive(buf)
    }

    /// Gives the first of these bytes as one datagram to the address.
    pub(crate) fn send(&mut self, addr: Addr, bytes: &[u8]) -> Answer<usize>
        ensures { IfOk result (λ count. count ≤ length bytes.now) }
    {
        self.ask(Call::Send)?;
        self.mailbox.send(addr, bytes)
    }
}
