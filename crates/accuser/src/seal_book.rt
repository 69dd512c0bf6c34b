//! The seals of frames, one for each different frame.

ghost use Rattle.std.specs.Prelude.{◌≡◌, [], ◌∷◌, None, length, IfOk, OnOk};
ghost use Rattle.definitions.specs.declared.frames.TurnFrame.{TurnFrame};
ghost use Rattle.seal_keys.specs.Seals.{seal_len};
ghost use Rattle.accuser.specs.SealBooks.{KeepsSeals, seal_in};

use crate::frame_key::{FrameKey, key_of};
use definitions::TurnFrame;
use grid_world::Session;
use seal_keys::Seal;
use std::alloc::{AllocError, Global};
use std::collections::BTreeMap;
use std::marker::Model;

/// The first seal of each different frame of a session. An ordered map keeps them, so that no
/// choice of frames makes it slow.
#[derive(Drop)]
pub(crate) struct SealBook {
    alloc: Global,
    session: Session,
    seals: BTreeMap<FrameKey, Seal>,
}

impl Model for SealBook {
    ghost use Rattle.seal_keys.specs.Seals.{seal_len};
    ghost use Rattle.accuser.specs.SealBooks.{AreLong, Book};

    ghost Value = { Book };

    ghost view = { λ b. record { game = b.session; entries = b.seals.entries } };

    ghost invariant = { λ b. AreLong (seal_len b.session) b.seals.entries };
}

/// The same seal once more, of this session.
fn copied(alloc: Global, session: &Session, seal: &Seal) -> Result<Seal, AllocError>
    requires { length seal.now ≡ seal_len session.now }
    ensures { IfOk result (λ copy. copy ≡ seal.now) }
{
    let mut copy = Seal::new(alloc, session)?;
    copy.set(seal.bytes());
    Ok(copy)
}

impl SealBook {
    /// With no seal. The allocator is kept, and an error comes where it has no memory for a copy of
    /// the session.
    pub(crate) fn new(alloc: Global, session: &Session) -> Result<SealBook, AllocError>
        ensures game { IfOk result (λ b. b.game ≡ session.now) }
        ensures empty { IfOk result (λ b. (f : TurnFrame) → seal_in b f ≡ None) }
    {
        Ok(SealBook {
            alloc,
            session: session.copy(alloc)?,
            seals: BTreeMap::new(alloc),
        })
    }

    /// Keeps a copy of the frame's seal, unless one is kept of the frame. An error comes where the
    /// book's allocator has no memory for a new one.
    pub(crate) fn note(&mut self, frame: &TurnFrame, seal: &Seal) -> Result<(), AllocError>
        requires { length seal.now ≡ seal_len self.old.game }
        ensures noted { OnOk result (KeepsSeals self.old self.new (record { frame = frame.now; seal = seal.now } ∷ [])) }
        ensures game { self.new.game ≡ self.old.game }
    {
        let key = key_of(frame);
        if self.seals.contains_key(&key) {
            return Ok(());
        }
        let copy = copied(self.alloc, &self.session, seal)?;
        self.seals.insert(key, copy)?;
        Ok(())
    }

    /// A copy of the seal that is kept of the frame; None where none is. An error comes where
    /// `alloc` has no memory.
    pub(crate) fn seal(&self, alloc: Global, frame: &TurnFrame) -> Result<Option<Seal>, AllocError>
        ensures { IfOk result (λ o. o ≡ seal_in self.now frame.now) }
    {
        match self.seals.get(&key_of(frame)) {
            None => Ok(None),
            Some(seal) => Ok(Some(copied(alloc, &self.session, seal)?)),
        }
    }
}
