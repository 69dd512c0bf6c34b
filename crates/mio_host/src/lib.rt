//! The machine itself as a host: its clock, its sockets and datagrams by mio, and one log file.
//!
//! This is the trusted edge: each call makes the call of mio or std that its name says, notes its
//! answer, and hands that on. Nothing here chooses or tries again. Mio and std are trusted with it.
#![tactic(auto)]

ghost use Rattle.std.specs.Prelude.{◌≡◌, [], IfOk};
ghost use Rattle.mio.specs.Events.{capacity as events_capacity};
ghost use Rattle.machine_host.specs.declared.hosts.TheConstants.{MOST_EVENTS};

use machine_host::forms::{Socket, millis_of, socket_addr, text_of};
use machine_host::{
    Answer, Host, HostNotes, LISTENER, MAILBOX, MOST_EVENTS, Tokens, fault_of as fault,
};
use mio::net::{TcpListener, TcpStream, UdpSocket};
use mio::{Events, Interest, Poll, Token};
use socket_station::{Addr, SocketId};
use std::alloc::{AllocError, Global};
use std::fs::{self, Files, OpenFile, OpenOptions};
use std::io::{self, Read, Write};
use std::net::{Net, Shutdown};
use std::os::unix::fs::OpenOptionsExt;
use std::time::{Clock, Duration};

/// The machine that a runtime reaches. What its calls answered is told by record.
#[derive(Drop)]
pub struct MioHost<R> {
    machine: R,
    events: Events,
    notes: HostNotes,
    ghost room: { events_capacity events ≡ MOST_EVENTS },
}

impl<R: Files + Net + Clock + Drop> MioHost<R> {
    /// Takes the memory of the list that waits fill. The machine is asked for nothing yet.
    pub fn new(machine: R, alloc: Global) -> Result<MioHost<R>, AllocError>
        ensures { IfOk result (λ host. ⟦<MioHost<R> as Host>⟧.history host ≡ []) }
    {
        Ok(MioHost {
            machine,
            events: Events::with_capacity(alloc, MOST_EVENTS)?,
            notes: HostNotes::new(),
        })
    }
}

/// The stream, whose bytes go at once from now on, however few they are.
fn at_once(stream: TcpStream) -> io::Result<TcpStream> {
    stream.set_nodelay(true).map(|()| stream)
}

impl<R: Files + Net + Clock + Drop> Host for MioHost<R> {
    type Selector = Poll;

    type Listener = TcpListener;

    type Stream = Socket<TcpStream>;

    type File = R::File;

    type Folder = R::File;

    type Mailbox = UdpSocket;

    ghost history = { λ h. h.notes };

    fn clock(&mut self) -> Answer<u64> {
        self.notes.clock(millis_of(self.machine.monotonic()))
    }

    fn select(&mut self) -> Answer<Poll> {
        self.notes.select(Poll::new(&self.machine).map_err(fault))
    }

    fn listen(&mut self, addr: Addr) -> Answer<TcpListener> {
        let bound = TcpListener::bind(&self.machine, socket_addr(addr));
        self.notes.listen(addr, bound.map_err(fault))
    }

    fn watch_listener(&mut self, poll: &mut Poll, listener: &mut TcpListener) -> Answer<()> {
        let (registry, token) = (poll.registry(), Token(LISTENER as usize));
        let done = registry.register(listener, token, Interest::READABLE);
        self.notes.watch_listener(done.map_err(fault))
    }

    fn accept(&mut self, listener: &mut TcpListener, number: SocketId) -> Answer<Self::Stream> {
        let taken = listener.accept().and_then(|(stream, _)| at_once(stream));
        self.notes.accept(number, Socket::of(taken, number))
    }

    fn connect(&mut self, number: SocketId, addr: Addr) -> Answer<Self::Stream> {
        let begun = TcpStream::connect(&self.machine, socket_addr(addr)).and_then(at_once);
        self.notes.connect(number, addr, Socket::of(begun, number))
    }

    fn watch(&mut self, poll: &mut Poll, socket: &mut Self::Stream) -> Answer<()> {
        let (registry, token) = (poll.registry(), Token(socket.number as usize));
        let both = Interest::READABLE | Interest::WRITABLE;
        let done = registry.register(&mut socket.stream, token, both);
        self.notes.watch(socket.number, done.map_err(fault))
    }

    fn wait(&mut self, poll: &mut Poll, millis: u64, tokens: &mut Tokens) -> Answer<()> {
        let done = poll.poll(&mut self.events, Some(Duration::from_millis(millis)));
        tokens.clear();
        for event in &self.events {
            tokens.push(event.token().0 as u64);
        }
        self.notes.wait(millis, done.map_err(fault), tokens)
    }

    fn read(&mut self, socket: &mut Self::Stream, buf: &mut [u8]) -> Answer<usize> {
        let count = socket.stream.read(buf).map_err(fault);
        self.notes.read(socket.number, count, buf)
    }

    fn write(&mut self, socket: &mut Self::Stream, bytes: &[u8]) -> Answer<usize> {
        let count = socket.stream.write(bytes).map_err(fault);
        self.notes.write(socket.number, bytes, count)
    }

    fn end_writes(&mut self, socket: &mut Self::Stream) -> Answer<()> {
        let done = socket.stream.shutdown(Shutdown::Write).map_err(fault);
        self.notes.end_writes(socket.number, done)
    }

    fn close(&mut self, socket: Self::Stream) {
        self.notes.close(socket.number);
    }

    fn create(&mut self, path: &[u8], mode: u32) -> Answer<R::File> {
        let mut how = OpenOptions::new();
        how.write(true).create_new(true).mode(mode);
        let file = text_of(path).and_then(|text| how.open(&self.machine, text).map_err(fault));
        self.notes.create(path, mode, file)
    }

    fn open_folder(&mut self, path: &[u8]) -> Answer<R::File> {
        let folder = text_of(path).and_then(|text| fs::open(&self.machine, text).map_err(fault));
        self.notes.open_folder(path, folder)
    }

    fn append(&mut self, file: &mut R::File, bytes: &[u8]) -> Answer<usize> {
        self.notes.append(bytes, file.write(bytes).map_err(fault))
    }

    fn sync_file(&mut self, file: &mut R::File) -> Answer<()> {
        self.notes.sync_file(file.sync_all().map_err(fault))
    }

    fn sync_folder(&mut self, folder: &mut R::File) -> Answer<()> {
        self.notes.sync_folder(folder.sync_all().map_err(fault))
    }

    fn bind(&mut self, addr: Addr) -> Answer<UdpSocket> {
        let bound = UdpSocket::bind(&self.machine, socket_addr(addr));
        self.notes.bind(addr, bound.map_err(fault))
    }

    fn watch_mailbox(&mut self, poll: &mut Poll, mailbox: &mut UdpSocket) -> Answer<()> {
        let (registry, token) = (poll.registry(), Token(MAILBOX as usize));
        let done = registry.register(mailbox, token, Interest::READABLE);
        self.notes.watch_mailbox(done.map_err(fault))
    }

    fn receive(&mut self, mailbox: &mut UdpSocket, buf: &mut [u8]) -> Answer<usize> {
        let taken = mailbox.recv_from(buf).map(|(count, _)| count);
        self.notes.receive(taken.map_err(fault), buf)
    }

    fn send(&mut self, mailbox: &mut UdpSocket, addr: Addr, bytes: &[u8]) -> Answer<usize> {
        let count = mailbox.send_to(bytes, socket_addr(addr)).map_err(fault);
        self.notes.send(addr, bytes, count)
    }
}
