//! The machine's own files as a host.
//!
//! This is the trusted edge. Each call makes the one call of std that its name says, and hands the
//! answer on through the notes; nothing here chooses or tries again. That std does what it says is
//! trusted with it. It opens files for reading and touches nothing else.
#![tactic(auto)]

use file_shelf::{FileHost, FileNotes, Numbered};
use machine_host::{Answer, fault_of as fault, text_of};
use std::fs;
use std::io::{Read, Seek, SeekFrom};
use std::rt::Files;

/// The files that a runtime reaches. What its calls answered is told by record.
#[derive(Drop)]
pub struct MachineFiles<R> {
    files: R,
    notes: FileNotes,
}

impl<R> MachineFiles<R> {
    /// The files that this runtime reaches, with no call so far.
    pub fn new(files: R) -> MachineFiles<R> {
        MachineFiles {
            files,
            notes: FileNotes::new(),
        }
    }
}

impl<R: Files + Drop> FileHost for MachineFiles<R> {
    type File = R::File;

    ghost history = { λ h. h.notes };

    fn open(&mut self, number: u64, path: &[u8]) -> Answer<Numbered<R::File>> {
        let opened = text_of(path).and_then(|text| fs::open(&self.files, text).map_err(fault));
        let answer = opened.map(|file| Numbered { file, number });
        self.notes.open(number, path, answer)
    }

    fn seek(&mut self, file: &mut Numbered<R::File>, at: u64) -> Answer<()> {
        let sought = file.file.seek(SeekFrom::Start(at)).map_err(fault);
        self.notes.seek(file.number, at, sought.map(|_| ()))
    }

    fn read(&mut self, file: &mut Numbered<R::File>, buf: &mut [u8]) -> Answer<usize> {
        let answer = file.file.read(buf).map_err(fault);
        self.notes.read(file.number, answer, buf)
    }
}
