//! What a file of cases gives a name: session texts, other texts and logs.

use crate::faults::Fault;
use sha2::{Digest as _, Sha256};
use std::alloc::{AllocError, Global};

/// A name and the bytes that it stands for.
#[derive(Drop)]
struct Entry {
    name: Vec<u8>,
    bytes: Vec<u8>,
}

/// The names of a file so far, and the session over which frames are spelled.
#[derive(Drop)]
pub struct Book {
    pub alloc: Global,
    entries: Vec<Entry>,
    over: [u8; 32],
}

impl Book {
    /// No names.
    pub fn new(alloc: Global) -> Book {
        Book {
            alloc,
            entries: Vec::new(alloc),
            over: [0; 32],
        }
    }

    /// The bytes of this name.
    pub fn find(&self, name: &str) -> Result<&[u8], Fault> {
        for entry in &self.entries {
            if entry.name.as_slice() == name.as_bytes() {
                return Ok(entry.bytes.as_slice());
            }
        }
        Err(Fault::Wanted("a name that the file gives before"))
    }

    /// A new name, for which no bytes stand yet.
    pub fn begin(&mut self, name: &str) -> Result<(), Fault> {
        if name.is_empty() || self.find(name).is_ok() {
            return Err(Fault::Wanted("a new name"));
        }
        let name = Vec::from_slice(self.alloc, name.as_bytes())?;
        let bytes = Vec::new(self.alloc);
        self.entries.push(Entry { name, bytes })?;
        Ok(())
    }

    /// The last name stands for these bytes too, behind those before.
    pub fn add(&mut self, bytes: &[u8]) -> Result<(), AllocError> {
        match self.entries.as_mut_slice().last_mut() {
            None => Ok(()),
            Some(entry) => entry.bytes.extend_from_slice(bytes),
        }
    }

    /// From now on frames are spelled over the session whose text has this name. Its id is the
    /// digest of the text.
    pub fn go_over(&mut self, session: &str) -> Result<(), Fault> {
        let id = Sha256::digest(self.find(session)?);
        self.over = id;
        Ok(())
    }

    /// The id of the session over which frames are spelled.
    pub fn id(&self) -> &[u8; 32] {
        &self.over
    }
}
