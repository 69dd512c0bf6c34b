//! The files of a shelf in memory.

ghost use Rattle.std.specs.Prelude.{◌≡◌, bytes_eq, option_map};
ghost use Rattle.station.specs.Files.{content_in};

use std::marker::Model;

/// A name and the bytes that stand under it.
#[derive(Drop)]
pub struct ShelfFile {
    name: Vec<u8>,
    bytes: Vec<u8>,
}

impl Model for ShelfFile {
    ghost use Rattle.station.specs.Files.{NamedBytes};

    ghost Value = { NamedBytes };

    ghost view = { λ f. record { name = f.name.items; bytes = f.bytes.items } };
}

impl ShelfFile {
    /// Has this name and these bytes.
    pub fn new(name: Vec<u8>, bytes: Vec<u8>) -> ShelfFile
        ensures { result ≡ record { name = name.items; bytes = bytes.items } }
    {
        ShelfFile { name, bytes }
    }

    /// The bytes.
    pub(crate) fn bytes(&self) -> &[u8]
        ensures { result.now ≡ self.now.bytes }
    {
        self.bytes.as_slice()
    }

    /// Whether this is the name.
    pub(crate) fn has_name(&self, name: &[u8]) -> bool
        ensures { result ≡ bytes_eq self.now.name name.now }
    {
        self.name.as_slice() == name
    }
}

/// The bytes of the file of that name.
pub(crate) fn find<'a>(files: &'a [ShelfFile], name: &[u8]) -> Option<&'a ShelfFile>
    ensures { option_map (λ f. f.now.bytes) result ≡ content_in files.now name.now }
{
    for file in files {
        if file.has_name(name) {
            return Some(file);
        }
    }
    None
}
