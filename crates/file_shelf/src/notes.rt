//! What a host of files was asked and answered so far, which only proofs read.
//!
//! A host whose answers come from elsewhere, as from the machine, hands each of them through here,
//! and tells its history by that. The notes take no memory, and noting does nothing when the
//! program runs.

ghost use Rattle.std.specs.Prelude.{◌≡◌, ◌≤◌, ◌∷◌, ◌++◌, [], Some, IfOk, length};
ghost use Rattle.machine_host.specs.Asks.{error_of, bytes_of};
ghost use Rattle.machine_host.specs.Noted.{fault_said, done_said};
ghost use Rattle.file_shelf.specs.FileAsks as A;

use machine_host::HostFault;
use record::Record;
use std::marker::Model;

// Which call a note is of: the first byte of its name. The second one says how it ended.
const OPEN: u8 = 0;

const SEEK: u8 = 1;

const READ: u8 = 2;

/// The history of a host of files.
#[derive(Drop)]
pub struct FileNotes {
    record: Record,
}

impl Model for FileNotes {
    ghost use Rattle.std.specs.Prelude.{List};
    ghost use Rattle.file_shelf.specs.FileAsks.{FileAsk};
    ghost use Rattle.file_shelf.specs.Noted.{asks_in};

    ghost Value = { List FileAsk };

    ghost view = { λ n. asks_in n.record.notes };
}

/// The number that a fault is noted by, from 1 on.
fn fault_code(fault: HostFault) -> u8
    ensures said { fault_said result ≡ fault }
    ensures some { done_said result ≡ Some fault }
{
    match fault {
        HostFault::WouldBlock => 1,
        HostFault::NotFound => 2,
        HostFault::NoRight => 3,
        HostFault::Exists => 4,
        HostFault::InUse => 5,
        HostFault::Refused => 6,
        HostFault::Reset => 7,
        HostFault::Full => 8,
        HostFault::Other => 9,
    }
}

/// The number that an answer is noted by: 0 where the call succeeded.
fn code_of<T>(answer: &Result<T, HostFault>) -> u8
    ensures { done_said result ≡ error_of answer.now }
{
    match answer {
        Ok(_) => 0,
        Err(fault) => fault_code(*fault),
    }
}

impl FileNotes {
    /// No call was made.
    pub fn new() -> FileNotes
        ensures { result ≡ [] }
    {
        FileNotes {
            record: Record::new(),
        }
    }

    /// The opening of the file at this path, under this number, answered this.
    pub fn open<F>(
        &mut self,
        number: u64,
        path: &[u8],
        answer: Result<F, HostFault>,
    ) -> Result<F, HostFault>
        ensures same { result ≡ answer }
        ensures noted { self.new ≡ self.old ++ A.Opened number path.now (error_of answer) ∷ [] }
    {
        self.record.note(&[number], &[OPEN, code_of(&answer)], path);
        answer
    }

    /// The move of the file's next read to this place answered this.
    pub fn seek(
        &mut self,
        number: u64,
        at: u64,
        answer: Result<(), HostFault>,
    ) -> Result<(), HostFault>
        ensures same { result ≡ answer }
        ensures noted { self.new ≡ self.old ++ A.Sought number at (error_of answer) ∷ [] }
    {
        self.record
            .note(&[number, at], &[SEEK, code_of(&answer)], &[]);
        answer
    }

    /// A `read` of the file answered this. What came stands at the front of the buffer.
    pub fn read(
        &mut self,
        number: u64,
        answer: Result<usize, HostFault>,
        buf: &[u8],
    ) -> Result<usize, HostFault>
        requires within { IfOk answer (λ count. count ≤ length buf.now) }
        ensures same { result ≡ answer }
        ensures noted { self.new ≡ self.old ++ A.Read number (bytes_of answer buf.now) ∷ [] }
    {
        match answer {
            Ok(count) => self.record.note(&[number], &[READ, 0], &buf[..count]),
            Err(fault) => self.record.note(&[number], &[READ, fault_code(fault)], &[]),
        }
        answer
    }
}
