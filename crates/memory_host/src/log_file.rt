//! The one file of a machine.

ghost use Rattle.std.specs.Prelude.{◌≡◌, ◌≤◌, ◌++◌, [], false, IfOk, IfSome, is_some, length, take};

use machine_host::{Answer, HostFault};
use std::alloc::Global;

/// A file that is appended to.
#[derive(Drop)]
pub struct LogFile {
    /// What stands in it.
    pub bytes: Vec<u8>,
    /// What stays after a crash of the machine: what stood in it when it was last synced.
    pub synced: Vec<u8>,
    /// Whether its folder was synced, so that there is such a file after a crash.
    pub is_there: bool,
    /// Who may read and write it.
    pub mode: u32,
    /// How many bytes each append takes at most.
    pub most: usize,
    /// How many more bytes there is room for.
    pub room: usize,
}

impl LogFile {
    /// Nothing stands in it, and there is room for anything.
    pub(crate) fn new(alloc: Global) -> LogFile
        ensures bytes { result.bytes.items ≡ [] }
        ensures synced { result.synced.items ≡ [] }
    {
        LogFile {
            bytes: Vec::new(alloc),
            synced: Vec::new(alloc),
            is_there: false,
            mode: 0,
            most: usize::MAX,
            room: usize::MAX,
        }
    }

    /// Appends the first of these bytes, as many as an append takes and there is room for. Where
    /// there is none it answers `Full`, and without memory `Other`.
    pub(crate) fn append(&mut self, bytes: &[u8]) -> Answer<usize>
        ensures within { IfOk result (λ count. count ≤ length bytes.now) }
        ensures bytes { IfOk result (λ count. self.new.bytes.items ≡ self.old.bytes.items ++ take count bytes.now) }
        ensures synced { self.new.synced ≡ self.old.synced }
    {
        let count = bytes.len().min(self.most).min(self.room);
        if self.room == 0 {
            return Err(HostFault::Full);
        }
        match self.bytes.extend_from_slice(&bytes[..count]) {
            Ok(()) => {
                self.room -= count;
                Ok(count)
            }
            Err(_) => Err(HostFault::Other),
        }
    }

    /// A new file of this mode stands in its place, with the same room.
    pub(crate) fn begin(&mut self, mode: u32)
        ensures bytes { self.new.bytes.items ≡ [] }
        ensures synced { self.new.synced.items ≡ [] }
        ensures gone { self.new.is_there ≡ false }
        ensures mode { self.new.mode ≡ mode }
    {
        self.bytes.clear();
        self.synced.clear();
        self.is_there = false;
        self.mode = mode;
    }

    /// What stands in it stays after a crash. Without memory it answers `Other`.
    pub(crate) fn sync(&mut self) -> Answer<()>
        ensures synced { IfOk result (λ u. self.new.synced.items ≡ self.old.bytes.items) }
        ensures bytes { self.new.bytes ≡ self.old.bytes }
    {
        match self.bytes.clone() {
            Ok(bytes) => {
                self.synced = bytes;
                Ok(())
            }
            Err(_) => Err(HostFault::Other),
        }
    }

    /// What a crash would leave of it. None says that there may be no such file.
    pub fn image(&self) -> Option<&[u8]>
        ensures some { IfSome result (λ bytes. bytes.now ≡ self.now.synced.items) }
        ensures there { is_some result ≡ self.now.is_there }
    {
        if self.is_there {
            Some(self.synced.as_slice())
        } else {
            None
        }
    }
}
