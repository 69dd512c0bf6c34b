//! The frames of the bytes that were taken last.

ghost use Rattle.std.specs.Prelude.{◌≡◌, ◌<◌, [], ◌∷◌, ◌++◌, length, IfOk};
ghost use Rattle.socket_table.specs.declared.table.TheConstants.{MOST_TAKEN};

use crate::table::MOST_TAKEN;
use std::alloc::{AllocError, Global};
use std::marker::Model;
use wire_frames::Frame;

/// At most as many frames as bytes are taken at once.
#[derive(Drop)]
pub struct FrameList {
    frames: Vec<Frame>,
}

impl Model for FrameList {
    ghost use Rattle.std.specs.Prelude.{◌≤◌, List, length, vec_capacity};
    ghost use Rattle.wire_frames.specs.declared.frames.Frame.{Frame};
    ghost use Rattle.socket_table.specs.declared.table.TheConstants.{MOST_TAKEN};

    ghost Value = { List Frame };

    ghost view = { λ l. l.frames.items };

    ghost invariant = { λ l. (length l.frames.items ≤ MOST_TAKEN) × (MOST_TAKEN ≤ vec_capacity l.frames) };
}

impl FrameList {
    /// Is empty. All memory is taken here.
    pub fn new(alloc: Global) -> Result<FrameList, AllocError>
        ensures { IfOk result (λ l. l ≡ []) }
    {
        Ok(FrameList {
            frames: Vec::with_capacity(alloc, MOST_TAKEN)?,
        })
    }

    /// The frames.
    pub fn as_slice(&self) -> &[Frame]
        ensures { result.now ≡ self.now }
    {
        &self.frames
    }

    /// Leaves the list empty.
    pub fn clear(&mut self)
        ensures { self.new ≡ [] }
    {
        self.frames.clear();
    }

    /// Adds the frame at the end.
    pub fn push(&mut self, frame: Frame)
        requires { length self.old < MOST_TAKEN }
        ensures { self.new ≡ self.old ++ frame ∷ [] }
    {
        self.frames.push(frame).unwrap();
    }
}
