//! The list of the sockets.

ghost use Rattle.std.specs.Prelude.{◌≡◌, [], IfOk};

use socket_lines::Line;
use std::alloc::{AllocError, Global};
use std::marker::Model;

/// How many lines there are at most: as many as are accepted, and those that one poll lists.
pub const MOST_SOCKETS: usize = 320;

/// The lines of the sockets, in the order in which they were opened, and how many were accepted. A
/// line stays until the first poll after its socket's end.
#[derive(Drop)]
pub struct Sockets {
    pub(crate) lines: Vec<Line>,
    pub(crate) accepted: u32,
}

impl Model for Sockets {
    ghost use Rattle.std.specs.Prelude.{vec_capacity};
    ghost use Rattle.socket_list.specs.Sockets.{Sockets};
    ghost use Rattle.socket_list.specs.Sound.{IsSound};

    ghost Value = { Sockets };

    ghost view = { λ t. record { lines = t.lines.items; accepted = t.accepted } };

    ghost invariant = { λ t. IsSound (record { lines = t.lines.items; accepted = t.accepted }) (vec_capacity t.lines) };
}

impl Sockets {
    /// The list before the first socket. All memory is taken here, and an error comes where it is
    /// wanting.
    pub fn new(alloc: Global) -> Result<Sockets, AllocError>
        ensures { IfOk result (λ t. t ≡ record { lines = []; accepted = 0 }) }
    {
        Ok(Sockets {
            lines: Vec::with_capacity(alloc, MOST_SOCKETS)?,
            accepted: 0,
        })
    }

    /// The lines, place by place from 0.
    pub fn lines(&self) -> &[Line]
        ensures { result.now ≡ self.now.lines }
    {
        &self.lines
    }
}
