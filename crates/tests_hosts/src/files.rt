//! The files of a shelf over a machine in memory: how often a file is opened.

use file_shelf::{FileHost, FileNotes, FileShelf, Numbered};
use machine_host::HostFault;
use station::{Pull, Shelf};
use std::cell::Cell;
use std::test::Fail;

/// What each file contains.
const CONTENTS: &[u8] = b"abcdef";

/// A machine on which every file has the same bytes, and how many were opened.
#[derive(Drop)]
struct Files<'a> {
    opened: &'a Cell<u32>,
    notes: FileNotes,
}

impl<'a> FileHost for Files<'a> {
    /// The place of the next read.
    type File = usize;

    ghost history = { λ h. h.notes };

    fn open(&mut self, number: u64, path: &[u8]) -> Result<Numbered<usize>, HostFault> {
        self.opened.set(self.opened.get().saturating_add(1));
        self.notes
            .open(number, path, Ok(Numbered { file: 0, number }))
    }

    fn seek(&mut self, file: &mut Numbered<usize>, at: u64) -> Result<(), HostFault> {
        file.file = at as usize;
        self.notes.seek(file.number, at, Ok(()))
    }

    fn read(&mut self, file: &mut Numbered<usize>, buf: &mut [u8]) -> Result<usize, HostFault> {
        let rest = CONTENTS.get(file.file..).unwrap_or(b"");
        let count = rest.len().min(buf.len());
        buf[..count].copy_from_slice(&rest[..count]);
        file.file = file.file.saturating_add(count);
        self.notes.read(file.number, Ok(count), buf)
    }
}

/// What a read of the file from this place on gives.
fn read<H: FileHost>(shelf: &mut FileShelf<H>, name: &[u8], at: u64) -> Pull {
    let mut buf = [0; 4];
    shelf.read_at(name, at, &mut buf)
}

#[test]
fn a_file_that_is_read_on_is_opened_once(rt: HostRuntime) -> Result<(), Fail> {
    let opened = Cell::new(0);
    let files = Files {
        opened: &opened,
        notes: FileNotes::new(),
    };
    let mut shelf = FileShelf::new(rt.alloc(), files);
    assert!(rt; read(&mut shelf, b"one", 0) == Pull::Took(4));
    assert!(rt; read(&mut shelf, b"one", 4) == Pull::Took(2));
    assert!(rt; read(&mut shelf, b"one", 6) == Pull::Ended);
    assert!(rt; opened.get() == 1);
    // another file, and another place, are opened anew
    assert!(rt; read(&mut shelf, b"two", 0) == Pull::Took(4));
    assert!(rt; read(&mut shelf, b"two", 0) == Pull::Took(4));
    assert!(rt; opened.get() == 3);
    Ok(())
}
