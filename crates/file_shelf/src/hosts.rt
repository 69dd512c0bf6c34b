//! The calls of a machine for its files.

ghost use Rattle.std.specs.Prelude.{◌≡◌, ◌<◌, ◌≤◌, ◌++◌, ◌∷◌, [], List, IfOk, length};
ghost use Rattle.machine_host.specs.Asks.{error_of, bytes_of};
ghost use Rattle.file_shelf.specs.FileAsks as A;
ghost use Rattle.file_shelf.specs.FileAsks.{FileAsk};

use machine_host::HostFault;

/// An open file, and the number that it was opened under.
#[derive(Drop)]
pub struct Numbered<F> {
    /// The file.
    pub file: F,
    /// The number.
    pub number: u64,
}

/// A machine by its files. Each call adds one entry to the history, of what it was asked and what
/// it answered.
pub trait FileHost {
    /// A file that is open for reading. It is closed where it is dropped.
    type File: Drop;

    /// What it was asked and answered so far, the first call first.
    ghost history: { Self → List FileAsk };

    /// Opens the file at the path for reading, from its front on, under this number. A path that
    /// isn't one of the machine's is a fault.
    fn open(&mut self, number: u64, path: &[u8]) -> Result<Numbered<Self::File>, HostFault>
        ensures after { history self.new ≡ history self.old ++ A.Opened number path.now (error_of result) ∷ [] }
        ensures numbered { IfOk result (λ file. file.number ≡ number) };

    /// The next read of the file begins at this place.
    fn seek(&mut self, file: &mut Numbered<Self::File>, at: u64) -> Result<(), HostFault>
        ensures after { history self.new ≡ history self.old ++ A.Sought file.old.number at (error_of result) ∷ [] }
        ensures numbered { file.new.number ≡ file.old.number };

    /// Takes the next bytes of the file, as many as fit. Where it takes none the file has ended.
    fn read(&mut self, file: &mut Numbered<Self::File>, buf: &mut [u8]) -> Result<usize, HostFault>
        requires { 0 < length buf.old }
        ensures within { IfOk result (λ count. count ≤ length buf.new) }
        ensures after { history self.new ≡ history self.old ++ A.Read file.old.number (bytes_of result buf.new) ∷ [] }
        ensures numbered { file.new.number ≡ file.old.number };
}
