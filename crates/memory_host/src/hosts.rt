//! The calls of a host, made on a machine in memory.

ghost use Rattle.std.specs.Prelude.{◌≡◌, [], IfOk};

use crate::machine::Machine;
use crate::refusals::Call;
use machine_host::{Answer, Host, HostFault, HostNotes, Socket, Tokens};
use socket_station::{Addr, SocketId};
use std::cell::RefCell;

/// A socket of the machine, which goes by its number alone.
type MemoryStream = Socket<()>;

/// Makes the calls of a host on a machine that a test holds, and tells them by record. While the
/// test uses the machine itself, each call answers `Other`.
#[derive(Drop)]
pub struct MemoryHost<'a> {
    machine: &'a RefCell<Machine>,
    notes: HostNotes,
}

impl<'a> MemoryHost<'a> {
    /// A host of this machine, which was asked nothing yet.
    pub fn new(machine: &'a RefCell<Machine>) -> MemoryHost<'a>
        ensures { ⟦<MemoryHost<'a> as Host>⟧.history result ≡ [] }
    {
        MemoryHost {
            machine,
            notes: HostNotes::new(),
        }
    }
}

/// The socket of this number, where the machine opened it.
fn opened(answer: Answer<()>, number: SocketId) -> Answer<MemoryStream>
    ensures { IfOk result (λ socket. socket.number ≡ number) }
{
    answer?;
    Ok(Socket { stream: (), number })
}

impl<'a> Host for MemoryHost<'a> {
    type Selector = u32;

    type Listener = ();

    type Stream = MemoryStream;

    type File = ();

    type Folder = ();

    type Mailbox = ();

    ghost history = { λ h. h.notes };

    fn clock(&mut self) -> Answer<u64> {
        let answer = match self.machine.try_borrow_mut() {
            Ok(mut machine) => machine.clock(),
            Err(_) => Err(HostFault::Other),
        };
        self.notes.clock(answer)
    }

    fn select(&mut self) -> Answer<u32> {
        let answer = match self.machine.try_borrow_mut() {
            Ok(mut machine) => machine.select(),
            Err(_) => Err(HostFault::Other),
        };
        self.notes.select(answer)
    }

    fn listen(&mut self, addr: Addr) -> Answer<()> {
        let answer = match self.machine.try_borrow_mut() {
            Ok(mut machine) => machine.ask(Call::Listen),
            Err(_) => Err(HostFault::Other),
        };
        self.notes.listen(addr, answer)
    }

    fn watch_listener(&mut self, selector: &mut u32, _listener: &mut ()) -> Answer<()> {
        let answer = match self.machine.try_borrow_mut() {
            Ok(mut machine) => machine.watch_listener(*selector),
            Err(_) => Err(HostFault::Other),
        };
        self.notes.watch_listener(answer)
    }

    fn accept(&mut self, _listener: &mut (), number: SocketId) -> Answer<MemoryStream> {
        let answer = match self.machine.try_borrow_mut() {
            Ok(mut machine) => machine.accept(number),
            Err(_) => Err(HostFault::Other),
        };
        self.notes.accept(number, opened(answer, number))
    }

    fn connect(&mut self, number: SocketId, addr: Addr) -> Answer<MemoryStream> {
        let answer = match self.machine.try_borrow_mut() {
            Ok(mut machine) => machine.connect(number, addr),
            Err(_) => Err(HostFault::Other),
        };
        self.notes.connect(number, addr, opened(answer, number))
    }

    fn watch(&mut self, selector: &mut u32, stream: &mut MemoryStream) -> Answer<()> {
        let answer = match self.machine.try_borrow_mut() {
            Ok(mut machine) => machine.watch(*selector, stream.number),
            Err(_) => Err(HostFault::Other),
        };
        self.notes.watch(stream.number, answer)
    }

    fn wait(&mut self, selector: &mut u32, millis: u64, tokens: &mut Tokens) -> Answer<()> {
        let answer = match self.machine.try_borrow_mut() {
            Ok(mut machine) => machine.wait(*selector, millis, tokens),
            Err(_) => Err(HostFault::Other),
        };
        self.notes.wait(millis, answer, tokens)
    }

    fn read(&mut self, stream: &mut MemoryStream, buf: &mut [u8]) -> Answer<usize> {
        let answer = match self.machine.try_borrow_mut() {
            Ok(mut machine) => machine.read(stream.number, buf),
            Err(_) => Err(HostFault::Other),
        };
        self.notes.read(stream.number, answer, buf)
    }

    fn write(&mut self, stream: &mut MemoryStream, bytes: &[u8]) -> Answer<usize> {
        let answer = match self.machine.try_borrow_mut() {
            Ok(mut machine) => machine.write(stream.number, bytes),
            Err(_) => Err(HostFault::Other),
        };
        self.notes.write(stream.number, bytes, answer)
    }

    fn end_writes(&mut self, stream: &mut MemoryStream) -> Answer<()> {
        let answer = match self.machine.try_borrow_mut() {
            Ok(mut machine) => machine.end_writes(stream.number),
            Err(_) => Err(HostFault::Other),
        };
        self.notes.end_writes(stream.number, answer)
    }

    fn close(&mut self, stream: MemoryStream) {
        if let Ok(mut machine) = self.machine.try_borrow_mut() {
            machine.close(stream.number);
        }
        self.notes.close(stream.number);
    }

    fn create(&mut self, path: &[u8], mode: u32) -> Answer<()> {
        let answer = match self.machine.try_borrow_mut() {
            Ok(mut machine) => machine.create(path, mode),
            Err(_) => Err(HostFault::Other),
        };
        self.notes.create(path, mode, answer)
    }

    fn open_folder(&mut self, path: &[u8]) -> Answer<()> {
        let answer = match self.machine.try_borrow_mut() {
            Ok(mut machine) => machine.ask(Call::OpenFolder),
            Err(_) => Err(HostFault::Other),
        };
        self.notes.open_folder(path, answer)
    }

    fn append(&mut self, _file: &mut (), bytes: &[u8]) -> Answer<usize> {
        let answer = match self.machine.try_borrow_mut() {
            Ok(mut machine) => machine.append(bytes),
            Err(_) => Err(HostFault::Other),
        };
        self.notes.append(bytes, answer)
    }

    fn sync_file(&mut self, _file: &mut ()) -> Answer<()> {
        let answer = match self.machine.try_borrow_mut() {
            Ok(mut machine) => machine.sync_file(),
            Err(_) => Err(HostFault::Other),
        };
        self.notes.sync_file(answer)
    }

    fn sync_folder(&mut self, _folder: &mut ()) -> Answer<()> {
        let answer = match self.machine.try_borrow_mut() {
            Ok(mut machine) => machine.sync_folder(),
            Err(_) => Err(HostFault::Other),
        };
        self.notes.sync_folder(answer)
    }

    fn bind(&mut self, addr: Addr) -> Answer<()> {
        let answer = match self.machine.try_borrow_mut() {
            Ok(mut machine) => machine.bind(addr),
            Err(_) => Err(HostFault::Other),
        };
        self.notes.bind(addr, answer)
    }

    fn watch_mailbox(&mut self, selector: &mut u32, _mailbox: &mut ()) -> Answer<()> {
        let answer = match self.machine.try_borrow_mut() {
            Ok(mut machine) => machine.watch_mailbox(*selector),
            Err(_) => Err(HostFault::Other),
        };
        self.notes.watch_mailbox(answer)
    }

    fn receive(&mut self, _mailbox: &mut (), buf: &mut [u8]) -> Answer<usize> {
        let answer = match self.machine.try_borrow_mut() {
            Ok(mut machine) => machine.receive(buf),
            Err(_) => Err(HostFault::Other),
        };
        self.notes.receive(answer, buf)
    }

    fn send(&mut self, _mailbox: &mut (), addr: Addr, bytes: &[u8]) -> Answer<usize> {
        let answer = match self.machine.try_borrow_mut() {
            Ok(mut machine) => machine.send(addr, bytes),
            Err(_) => Err(HostFault::Other),
        };
        self.notes.send(addr, bytes, answer)
    }
}
