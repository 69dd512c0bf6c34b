//! The files of a case.

ghost use Rattle.std.specs.Prelude.{◌≡◌, bytes_eq, map, IfOk, OnOk};
ghost use Rattle.std.specs.List.{list_any};
ghost use Rattle.station.specs.Files.{NamesDiffer};

use crate::faults::Fault;
use station::{MemoryShelf, ShelfFile};
use std::alloc::{AllocError, Global};

/// A name, and the bytes that stand under it.
#[derive(Drop)]
struct Named {
    name: Vec<u8>,
    bytes: Vec<u8>,
}

/// Files, each by its name and its bytes.
#[derive(Drop)]
pub struct Files {
    named: Vec<Named>,
}

/// Whether one of the names is this one.
fn is_among(names: &[Vec<u8>], name: &[u8]) -> bool
    ensures { result ≡ list_any (bytes_eq name.now) (map (λ own. own.items) names.now) }
{
    for own in names {
        if name == own.as_slice() {
            return true;
        }
    }
    false
}

/// Puts a file of a new name to the others. The names of all are kept beside them.
#[tactic(auto, using(crate::proofs::Names::names_push, crate::proofs::Names::names_alike))]
fn shelve(
    alloc: Global,
    names: &mut Vec<Vec<u8>>,
    files: &mut Vec<ShelfFile>,
    file: Named,
) -> Result<(), Fault>
    requires differ { NamesDiffer files.old.items }
    requires named { map (λ f. f.name) files.old.items ≡ map (λ n. n.items) names.old.items }
    ensures differ { OnOk result (NamesDiffer files.new.items) }
    ensures named { OnOk result
        (map (λ f. f.name) files.new.items ≡ map (λ n. n.items) names.new.items) }
{
    let Named { name, bytes } = file;
    if is_among(names.as_slice(), name.as_slice()) {
        return Err(Fault::Wanted("another name for each file"));
    }
    let own = Vec::from_slice(alloc, name.as_slice())?;
    names.push(own)?;
    files.push(ShelfFile::new(name, bytes))?;
    Ok(())
}

/// Files of a shelf, of names that differ.
#[tactic(auto, using(crate::proofs::Names::names_none, crate::proofs::Names::none_alike))]
fn shelved(alloc: Global, named: Vec<Named>) -> Result<Vec<ShelfFile>, Fault>
    ensures { IfOk result (λ files. NamesDiffer files.items) }
{
    let mut names = Vec::new(alloc);
    let mut files = Vec::new(alloc);
    'files: for file in named {
        shelve(alloc, &mut names, &mut files, file)?;
    }
    Ok(files)
}

impl Files {
    /// No files.
    pub fn new(alloc: Global) -> Files {
        Files {
            named: Vec::new(alloc),
        }
    }

    /// One file more.
    pub fn add(&mut self, name: Vec<u8>, bytes: Vec<u8>) -> Result<(), AllocError> {
        self.named.push(Named { name, bytes })?;
        Ok(())
    }

    /// The last file has these bytes too.
    pub fn extend(&mut self, bytes: &[u8]) -> Result<(), AllocError> {
        match self.named.last_mut() {
            None => Ok(()),
            Some(file) => file.bytes.extend_from_slice(bytes),
        }
    }

    /// The shelf with these files, of which these calls fail.
    pub fn into_shelf(self, alloc: Global, fails: Vec<u32>) -> Result<MemoryShelf, Fault> {
        let files = shelved(alloc, self.named)?;
        Ok(MemoryShelf::new(files, fails))
    }
}
