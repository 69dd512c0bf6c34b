//! A seal as its bytes.

ghost use Rattle.std.specs.Prelude.{◌≡◌, length, replicate, IfOk};
ghost use Rattle.seal_keys.specs.Seals.{seal_len};

use crate::tree::tree_height;
use grid_world::Session;
use std::alloc::{AllocError, Global};
use std::marker::Model;

/// The bytes of a seal, or room for them: 256 disclosed values, 256 other public values, and a
/// sibling for each height of the tree of keys, 32 bytes each. They are 16,416 to 16,832 bytes.
#[derive(Drop)]
pub struct Seal {
    pub(crate) bytes: Vec<u8>,
}

impl Model for Seal {
    ghost use Rattle.std.specs.Prelude.{ℕ, List};

    ghost Value = { List ℕ };

    ghost view = { λ s. s.bytes.items };
}

/// How many bytes the seals of a session have.
pub(crate) fn seal_len(session: &Session) -> usize
    ensures { result ≡ seal_len session.now }
{
    16384 + 32 * tree_height(session) as usize
}

impl Seal {
    /// Room for a seal of the session, with zeros in it. An error comes only where memory runs out.
    pub fn new(alloc: Global, session: &Session) -> Result<Seal, AllocError>
        ensures { IfOk result (λ s. s ≡ replicate (seal_len session.now) 0) }
    {
        Ok(Seal {
            bytes: vec![in alloc; 0; seal_len(session)]?,
        })
    }

    /// The bytes.
    pub fn bytes(&self) -> &[u8]
        ensures { result.now ≡ self.now }
    {
        &self.bytes
    }

    /// Puts these bytes, as many as stand there, in place of those that do.
    pub fn set(&mut self, bytes: &[u8])
        requires { length bytes.now ≡ length self.old }
        ensures { self.new ≡ bytes.now }
    {
        self.bytes.copy_from_slice(bytes);
    }
}
