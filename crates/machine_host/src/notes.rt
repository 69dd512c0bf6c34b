//! What a host was asked and answered so far, which only proofs read.
//!
//! A host whose answers come from elsewhere, as from the machine, notes each of them here, and
//! tells its history by that. The notes take no memory, and noting does nothing when the program
//! runs.

ghost use Rattle.std.specs.Prelude.{◌≡◌, ◌≤◌, ◌∷◌, ◌++◌, [], Some, IfOk, length};
ghost use Rattle.machine_host.specs.Asks as A;
ghost use Rattle.machine_host.specs.Asks.{error_of, bytes_of, list_of};
ghost use Rattle.machine_host.specs.Noted.{noted_in, fault_said, done_said, answer_said};

use crate::faults::HostFault;
use crate::hosts::Tokens;
use record::Record;
use socket_station::{Addr, SocketId};
use std::marker::Model;

// Which call a note is of: the first byte of its name. The second one says how it ended. Behind them stands the machine
// that a datagram goes to.
const CLOCK: u8 = 0;

const SELECT: u8 = 1;

const LISTEN: u8 = 2;

const WATCH_LISTENER: u8 = 3;

const ACCEPT: u8 = 4;

const CONNECT: u8 = 5;

const WATCH: u8 = 6;

const WAIT_AT_MOST: u8 = 7;

const WAIT: u8 = 8;

const READ: u8 = 9;

const WRITE: u8 = 10;

const END_WRITES: u8 = 11;

const CLOSE: u8 = 12;

const CREATE: u8 = 13;

const OPEN_FOLDER: u8 = 14;

const APPEND: u8 = 15;

const SYNC_FILE: u8 = 16;

const SYNC_FOLDER: u8 = 17;

const BIND: u8 = 18;

const WATCH_MAILBOX: u8 = 19;

const RECEIVE: u8 = 20;

const SEND: u8 = 21;

/// The history of a host. Each note takes what a call was asked, then its answer, and then what
/// that filled, and it hands the answer on.
#[derive(Drop)]
pub struct HostNotes {
    record: Record,
}

impl Model for HostNotes {
    ghost use Rattle.std.specs.Prelude.{List};
    ghost use Rattle.machine_host.specs.Asks.{Ask};
    ghost use Rattle.machine_host.specs.Noted.{noted_in};

    ghost Value = { List Ask };

    ghost view = { λ n. (noted_in n.record.notes).asks };
}

/// The number that a fault is noted by, from 1 on.
fn fault_code(fault: HostFault) -> u8
    ensures said { fault_said result ≡ fault }
    ensures some { done_said result ≡ Some fault }
{
    match fault {
        HostFault::WouldBlock => 1,
        HostFault::NotFound => 2,
        HostFault::NoRight => 3,
        HostFault::Exists => 4,
        HostFault::InUse => 5,
        HostFault::Refused => 6,
        HostFault::Reset => 7,
        HostFault::Full => 8,
        HostFault::Other => 9,
    }
}

/// The number that an answer is noted by: 0 where the call succeeded.
fn code_of<T>(answer: &Result<T, HostFault>) -> u8
    ensures { done_said result ≡ error_of answer.now }
{
    match answer {
        Ok(_) => 0,
        Err(fault) => fault_code(*fault),
    }
}

impl HostNotes {
    /// No call was made.
    pub fn new() -> HostNotes
        ensures { result ≡ [] }
    {
        HostNotes {
            record: Record::new(),
        }
    }

    /// The clock answered this, in milliseconds.
    pub fn clock(&mut self, answer: Result<u64, HostFault>) -> Result<u64, HostFault>
        ensures same { result ≡ answer }
        ensures noted { self.new ≡ self.old ++ A.Clock answer ∷ [] }
    {
        match &answer {
            Ok(millis) => self.record.note(&[*millis], &[CLOCK, 0], &[]),
            Err(fault) => self.record.note(&[], &[CLOCK, fault_code(*fault)], &[]),
        }
        answer
    }

    /// The making of a selector answered this.
    pub fn select<T>(&mut self, answer: Result<T, HostFault>) -> Result<T, HostFault>
        ensures same { result ≡ answer }
        ensures noted { self.new ≡ self.old ++ A.Selected (error_of answer) ∷ [] }
    {
        self.record.note(&[], &[SELECT, code_of(&answer)], &[]);
        answer
    }

    /// A `listen` at this address answered this.
    pub fn listen<T>(&mut self, addr: Addr, answer: Result<T, HostFault>) -> Result<T, HostFault>
        ensures same { result ≡ answer }
        ensures noted { self.new ≡ self.old ++ A.Listened addr (error_of answer) ∷ [] }
    {
        let port = addr.port as u64;
        self.record
            .note(&[port], &[LISTEN, code_of(&answer)], &addr.ip);
        answer
    }

    /// The watching of what listens answered this.
    pub fn watch_listener(&mut self, answer: Result<(), HostFault>) -> Result<(), HostFault>
        ensures same { result ≡ answer }
        ensures noted { self.new ≡ self.old ++ A.ListenerWatched (error_of answer) ∷ [] }
    {
        self.record
            .note(&[], &[WATCH_LISTENER, code_of(&answer)], &[]);
        answer
    }

    /// An `accept` under this number answered this.
    pub fn accept<T>(
        &mut self,
        number: SocketId,
        answer: Result<T, HostFault>,
    ) -> Result<T, HostFault>
        ensures same { result ≡ answer }
        ensures noted { self.new ≡ self.old ++ A.Accepted number (error_of answer) ∷ [] }
    {
        self.record
            .note(&[number as u64], &[ACCEPT, code_of(&answer)], &[]);
        answer
    }

    /// A `connect` under this number to this address answered this.
    pub fn connect<T>(
        &mut self,
        number: SocketId,
        addr: Addr,
        answer: Result<T, HostFault>,
    ) -> Result<T, HostFault>
        ensures same { result ≡ answer }
        ensures noted { self.new ≡ self.old ++ A.Connected number addr (error_of answer) ∷ [] }
    {
        let port = addr.port as u64;
        self.record.note(
            &[number as u64, port],
            &[CONNECT, code_of(&answer)],
            &addr.ip,
        );
        answer
    }

    /// The watching of this socket answered this.
    pub fn watch(
        &mut self,
        number: SocketId,
        answer: Result<(), HostFault>,
    ) -> Result<(), HostFault>
        ensures same { result ≡ answer }
        ensures noted { self.new ≡ self.old ++ A.Watched number (error_of answer) ∷ [] }
    {
        self.record
            .note(&[number as u64], &[WATCH, code_of(&answer)], &[]);
        answer
    }

    /// A `wait` of at most so many milliseconds answered this, with these tokens.
    pub fn wait(
        &mut self,
        millis: u64,
        answer: Result<(), HostFault>,
        tokens: &Tokens,
    ) -> Result<(), HostFault>
        ensures same { result ≡ answer }
        ensures noted { self.new ≡ self.old ++ A.Waited millis (list_of answer tokens.now.items) ∷ [] }
    {
        self.record.note(&[millis], &[WAIT_AT_MOST], &[]);
        match &answer {
            Ok(()) => self.record.note(tokens.as_slice(), &[WAIT, 0], &[]),
            Err(fault) => self.record.note(&[], &[WAIT, fault_code(*fault)], &[]),
        }
        answer
    }

    /// A `read` of this socket answered this. What came stands at the front of the buffer.
    pub fn read(
        &mut self,
        number: SocketId,
        answer: Result<usize, HostFault>,
        buf: &[u8],
    ) -> Result<usize, HostFault>
        requires within { IfOk answer (λ count. count ≤ length buf.now) }
        ensures same { result ≡ answer }
        ensures noted { self.new ≡ self.old ++ A.Read number (bytes_of answer buf.now) ∷ [] }
    {
        match &answer {
            Ok(count) => self
                .record
                .note(&[number as u64], &[READ, 0], &buf[..*count]),
            Err(fault) => self
                .record
                .note(&[number as u64], &[READ, fault_code(*fault)], &[]),
        }
        answer
    }

    /// A `write` of these bytes to this socket answered this.
    pub fn write(
        &mut self,
        number: SocketId,
        bytes: &[u8],
        answer: Result<usize, HostFault>,
    ) -> Result<usize, HostFault>
        ensures same { result ≡ answer }
        ensures noted { self.new ≡ self.old ++ A.Wrote number bytes.now answer ∷ [] }
    {
        let socket = number as u64;
        match &answer {
            Ok(count) => self
                .record
                .note(&[socket, *count as u64], &[WRITE, 0], bytes),
            Err(fault) => self
                .record
                .note(&[socket, 0], &[WRITE, fault_code(*fault)], bytes),
        }
        answer
    }

    /// The end of what is sent on this socket answered this.
    pub fn end_writes(
        &mut self,
        number: SocketId,
        answer: Result<(), HostFault>,
    ) -> Result<(), HostFault>
        ensures same { result ≡ answer }
        ensures noted { self.new ≡ self.old ++ A.WritesEnded number (error_of answer) ∷ [] }
    {
        self.record
            .note(&[number as u64], &[END_WRITES, code_of(&answer)], &[]);
        answer
    }

    /// This socket was closed.
    pub fn close(&mut self, number: SocketId)
        ensures { self.new ≡ self.old ++ A.Closed number ∷ [] }
    {
        self.record.note(&[number as u64], &[CLOSE, 0], &[]);
    }

    /// A `create` at this path with this mode answered this.
    pub fn create<T>(
        &mut self,
        path: &[u8],
        mode: u32,
        answer: Result<T, HostFault>,
    ) -> Result<T, HostFault>
        ensures same { result ≡ answer }
        ensures noted { self.new ≡ self.old ++ A.Created path.now mode (error_of answer) ∷ [] }
    {
        self.record
            .note(&[mode as u64], &[CREATE, code_of(&answer)], path);
        answer
    }

    /// The opening of the folder at this path answered this.
    pub fn open_folder<T>(
        &mut self,
        path: &[u8],
        answer: Result<T, HostFault>,
    ) -> Result<T, HostFault>
        ensures same { result ≡ answer }
        ensures noted { self.new ≡ self.old ++ A.FolderOpened path.now (error_of answer) ∷ [] }
    {
        self.record
            .note(&[], &[OPEN_FOLDER, code_of(&answer)], path);
        answer
    }

    /// An `append` of these bytes answered this.
    pub fn append(
        &mut self,
        bytes: &[u8],
        answer: Result<usize, HostFault>,
    ) -> Result<usize, HostFault>
        ensures same { result ≡ answer }
        ensures noted { self.new ≡ self.old ++ A.Appended bytes.now answer ∷ [] }
    {
        match &answer {
            Ok(count) => self.record.note(&[*count as u64], &[APPEND, 0], bytes),
            Err(fault) => self.record.note(&[0], &[APPEND, fault_code(*fault)], bytes),
        }
        answer
    }

    /// A `sync_file` answered this.
    pub fn sync_file(&mut self, answer: Result<(), HostFault>) -> Result<(), HostFault>
        ensures same { result ≡ answer }
        ensures noted { self.new ≡ self.old ++ A.FileSynced (error_of answer) ∷ [] }
    {
        self.record.note(&[], &[SYNC_FILE, code_of(&answer)], &[]);
        answer
    }

    /// A `sync_folder` answered this.
    pub fn sync_folder(&mut self, answer: Result<(), HostFault>) -> Result<(), HostFault>
        ensures same { result ≡ answer }
        ensures noted { self.new ≡ self.old ++ A.FolderSynced (error_of answer) ∷ [] }
    {
        self.record.note(&[], &[SYNC_FOLDER, code_of(&answer)], &[]);
        answer
    }

    /// A `bind` at this address answered this.
    pub fn bind<T>(&mut self, addr: Addr, answer: Result<T, HostFault>) -> Result<T, HostFault>
        ensures same { result ≡ answer }
        ensures noted { self.new ≡ self.old ++ A.Bound addr (error_of answer) ∷ [] }
    {
        let port = addr.port as u64;
        self.record
            .note(&[port], &[BIND, code_of(&answer)], &addr.ip);
        answer
    }

    /// The watching of what datagrams are received by answered this.
    pub fn watch_mailbox(&mut self, answer: Result<(), HostFault>) -> Result<(), HostFault>
        ensures same { result ≡ answer }
        ensures noted { self.new ≡ self.old ++ A.MailboxWatched (error_of answer) ∷ [] }
    {
        self.record
            .note(&[], &[WATCH_MAILBOX, code_of(&answer)], &[]);
        answer
    }

    /// A `receive` answered this. What came stands at the front of the buffer.
    pub fn receive(
        &mut self,
        answer: Result<usize, HostFault>,
        buf: &[u8],
    ) -> Result<usize, HostFault>
        requires within { IfOk answer (λ count. count ≤ length buf.now) }
        ensures same { result ≡ answer }
        ensures noted { self.new ≡ self.old ++ A.Received (bytes_of answer buf.now) ∷ [] }
    {
        match &answer {
            Ok(count) => self.record.note(&[], &[RECEIVE, 0], &buf[..*count]),
            Err(fault) => self.record.note(&[], &[RECEIVE, fault_code(*fault)], &[]),
        }
        answer
    }

    /// A `send` of these bytes to this address answered this.
    pub fn send(
        &mut self,
        addr: Addr,
        bytes: &[u8],
        answer: Result<usize, HostFault>,
    ) -> Result<usize, HostFault>
        ensures same { result ≡ answer }
        ensures noted { self.new ≡ self.old ++ A.Sent addr bytes.now answer ∷ [] }
    {
        let port = addr.port as u64;
        let [a, b, c, d] = addr.ip;
        match &answer {
            Ok(count) => self
                .record
                .note(&[port, *count as u64], &[SEND, 0, a, b, c, d], bytes),
            Err(fault) => self
                .record
                .note(&[port, 0], &[SEND, fault_code(*fault), a, b, c, d], bytes),
        }
        answer
    }
}
