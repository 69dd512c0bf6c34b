//! The calls of the machine.

ghost use Rattle.std.specs.Prelude.{◌≡◌, ◌<◌, ◌≤◌, ◌++◌, ◌∷◌, [], ℕ, List, IfOk, length};
ghost use Rattle.machine_host.specs.Asks as A;
ghost use Rattle.machine_host.specs.Asks.{Ask, error_of, bytes_of, list_of};

use crate::faults::HostFault;
use arrayvec::ArrayVec;
use socket_station::{Addr, SocketId};

/// How many tokens a wait reports at most.
pub const MOST_EVENTS: usize = 48;

/// The tokens of what a wait found ready.
pub type Tokens = ArrayVec<u64, MOST_EVENTS>;

/// The token of what listens: no socket number is as great. The token of a socket is its number.
pub const LISTENER: u64 = u64::MAX;

/// The token of what datagrams are received by: no socket number is as great either.
pub const MAILBOX: u64 = u64::MAX - 1;

/// A socket of the machine knows the number that it was opened under.
pub trait Numbered {
    /// The number.
    ghost number: { Self → ℕ };

    /// The number.
    fn number(&self) -> SocketId
        ensures { result ≡ number self.now };
}

/// A machine: its clock, its sockets, its datagrams, and one file with its folder. Each call adds one entry to
/// the history, of what it was asked and what it answered.
pub trait Host {
    /// What readiness is asked of.
    type Selector: Drop;

    /// What listens at an address.
    type Listener: Drop;

    /// A connection to another machine. It is closed by `close`, or where it is dropped.
    type Stream: Numbered + Drop;

    /// A file that is appended to.
    type File: Drop;

    /// A folder that files were created in.
    type Folder: Drop;

    /// What datagrams are received and sent by.
    type Mailbox: Drop;

    /// What it was asked and answered so far, the first call first.
    ghost history: { Self → List Ask };

    /// The milliseconds since some start.
    fn clock(&mut self) -> Result<u64, HostFault>
        ensures { history self.new ≡ history self.old ++ A.Clock result ∷ [] };

    /// Makes an object that readiness is asked of.
    fn select(&mut self) -> Result<Self::Selector, HostFault>
        ensures { history self.new ≡ history self.old ++ A.Selected (error_of result) ∷ [] };

    /// Listens at the address.
    fn listen(&mut self, addr: Addr) -> Result<Self::Listener, HostFault>
        ensures { history self.new ≡ history self.old ++ A.Listened addr (error_of result) ∷ [] };

    /// Has waits report, by the token `LISTENER`, that connections wait.
    fn watch_listener(
        &mut self,
        selector: &mut Self::Selector,
        listener: &mut Self::Listener,
    ) -> Result<(), HostFault>
        ensures { history self.new ≡ history self.old ++ A.ListenerWatched (error_of result) ∷ [] };

    /// The next connection that waits, under this number.
    fn accept(
        &mut self,
        listener: &mut Self::Listener,
        number: SocketId,
    ) -> Result<Self::Stream, HostFault>
        ensures after { history self.new ≡ history self.old ++ A.Accepted number (error_of result) ∷ [] }
        ensures numbered { IfOk result (λ stream. Self.Stream.number stream ≡ number) };

    /// Begins to connect to the address, under this number, without a wait.
    fn connect(&mut self, number: SocketId, addr: Addr) -> Result<Self::Stream, HostFault>
        ensures after { history self.new ≡ history self.old ++ A.Connected number addr (error_of result) ∷ [] }
        ensures numbered { IfOk result (λ stream. Self.Stream.number stream ≡ number) };

    /// Has waits report, by its number, that the socket may be read or written.
    fn watch(
        &mut self,
        selector: &mut Self::Selector,
        stream: &mut Self::Stream,
    ) -> Result<(), HostFault>
        ensures after { history self.new ≡ history self.old ++ A.Watched (Self.Stream.number stream.old) (error_of result) ∷ [] }
        ensures numbered { Self.Stream.number stream.new ≡ Self.Stream.number stream.old };

    /// Waits until something that is watched is ready, at most so many milliseconds, and lists
    /// the tokens of what is, in place of what was in the list.
    fn wait(
        &mut self,
        selector: &mut Self::Selector,
        millis: u64,
        tokens: &mut ArrayVec<u64, MOST_EVENTS>,
    ) -> Result<(), HostFault>
        ensures { history self.new ≡ history self.old ++ A.Waited millis (list_of result tokens.new.items) ∷ [] };

    /// Takes bytes that came, as many as fit. Where it takes none the other side has ended.
    fn read(&mut self, stream: &mut Self::Stream, buf: &mut [u8]) -> Result<usize, HostFault>
        requires { 0 < length buf.old }
        ensures within { IfOk result (λ count. count ≤ length buf.new) }
        ensures after { history self.new ≡ history self.old ++ A.Read (Self.Stream.number stream.old) (bytes_of result buf.new) ∷ [] }
        ensures numbered { Self.Stream.number stream.new ≡ Self.Stream.number stream.old };

    /// Gives the first of these bytes, and says how many.
    fn write(&mut self, stream: &mut Self::Stream, bytes: &[u8]) -> Result<usize, HostFault>
        ensures within { IfOk result (λ count. count ≤ length bytes.now) }
        ensures after { history self.new ≡ history self.old ++ A.Wrote (Self.Stream.number stream.old) bytes.now result ∷ [] }
        ensures numbered { Self.Stream.number stream.new ≡ Self.Stream.number stream.old };

    /// Says to the other side that no more is sent.
    fn end_writes(&mut self, stream: &mut Self::Stream) -> Result<(), HostFault>
        ensures after { history self.new ≡ history self.old ++ A.WritesEnded (Self.Stream.number stream.old) (error_of result) ∷ [] }
        ensures numbered { Self.Stream.number stream.new ≡ Self.Stream.number stream.old };

    /// Closes the socket.
    fn close(&mut self, stream: Self::Stream)
        ensures { history self.new ≡ history self.old ++ A.Closed (Self.Stream.number stream) ∷ [] };

    /// Creates a file at the path, with this mode. A file that is there is a fault, and stays as
    /// it is.
    fn create(&mut self, path: &[u8], mode: u32) -> Result<Self::File, HostFault>
        ensures { history self.new ≡ history self.old ++ A.Created path.now mode (error_of result) ∷ [] };

    /// Opens the folder at the path.
    fn open_folder(&mut self, path: &[u8]) -> Result<Self::Folder, HostFault>
        ensures { history self.new ≡ history self.old ++ A.FolderOpened path.now (error_of result) ∷ [] };

    /// Appends the first of these bytes to the file, and says how many.
    fn append(&mut self, file: &mut Self::File, bytes: &[u8]) -> Result<usize, HostFault>
        ensures within { IfOk result (λ count. count ≤ length bytes.now) }
        ensures after { history self.new ≡ history self.old ++ A.Appended bytes.now result ∷ [] };

    /// What stands in the file stays after a crash of the machine.
    fn sync_file(&mut self, file: &mut Self::File) -> Result<(), HostFault>
        ensures { history self.new ≡ history self.old ++ A.FileSynced (error_of result) ∷ [] };

    /// So does which files the folder has.
    fn sync_folder(&mut self, folder: &mut Self::Folder) -> Result<(), HostFault>
        ensures { history self.new ≡ history self.old ++ A.FolderSynced (error_of result) ∷ [] };

    /// Receives and sends datagrams at the address.
    fn bind(&mut self, addr: Addr) -> Result<Self::Mailbox, HostFault>
        ensures { history self.new ≡ history self.old ++ A.Bound addr (error_of result) ∷ [] };

    /// Has waits report, by the token `MAILBOX`, that datagrams may be there.
    fn watch_mailbox(
        &mut self,
        selector: &mut Self::Selector,
        mailbox: &mut Self::Mailbox,
    ) -> Result<(), HostFault>
        ensures { history self.new ≡ history self.old ++ A.MailboxWatched (error_of result) ∷ [] };

    /// Takes the next datagram, or as many of its first bytes as fit. It may have no bytes.
    fn receive(&mut self, mailbox: &mut Self::Mailbox, buf: &mut [u8]) -> Result<usize, HostFault>
        ensures within { IfOk result (λ count. count ≤ length buf.new) }
        ensures after { history self.new ≡ history self.old ++ A.Received (bytes_of result buf.new) ∷ [] };

    /// Gives these bytes as one datagram to the address, and says how many went.
    fn send(
        &mut self,
        mailbox: &mut Self::Mailbox,
        addr: Addr,
        bytes: &[u8],
    ) -> Result<usize, HostFault>
        ensures within { IfOk result (λ count. count ≤ length bytes.now) }
        ensures after { history self.new ≡ history self.old ++ A.Sent addr bytes.now result ∷ [] };
}
