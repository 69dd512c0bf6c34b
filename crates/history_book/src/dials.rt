//! The dials for each player.

ghost use Rattle.std.specs.Prelude.{◌≡◌, IfOk, replicate, slice_set, get_or};
ghost use Rattle.history_book.specs.Dials.{no_dials, dialled_once};

use definitions::PlayerId;
use socket_station::SocketId;
use std::alloc::{AllocError, Global};
use std::marker::Model;

/// How many numbers a player may have.
const PLAYERS: usize = 256;

/// The last socket that was dialled for a player, and how often one was, failed dials too. The count stays at its last value.
#[derive(Clone, Copy, Debug, PartialEq, Eq)]
pub struct Dials {
    pub last: Option<SocketId>,
    pub count: u32,
}

/// The dials for each player, by its number.
#[derive(Drop)]
pub(crate) struct DialTable {
    rows: Vec<Dials>,
}

impl Model for DialTable {
    ghost use Rattle.std.specs.Prelude.{◌≡◌, List, length};
    ghost use Rattle.history_book.specs.declared.dials.Dials.{Dials};
    ghost use Rattle.history_book.specs.declared.dials.TheConstants.{PLAYERS};

    ghost Value = { List Dials };

    ghost view = { λ t. t.rows.items };

    ghost invariant = { λ t. length t.rows.items ≡ PLAYERS };
}

impl DialTable {
    /// Nobody was dialled.
    pub(crate) fn new(alloc: Global) -> Result<DialTable, AllocError>
        ensures { IfOk result (λ t. t ≡ replicate 256 no_dials) }
    {
        let none = Dials {
            last: None,
            count: 0,
        };
        Ok(DialTable {
            rows: vec![in alloc; none; PLAYERS]?,
        })
    }

    /// The dials for a player.
    pub(crate) fn of(&self, player: PlayerId) -> Dials
        ensures { result ≡ get_or self.now player no_dials }
    {
        self.rows[player as usize]
    }

    /// One more dial for a player, which gave that socket or failed.
    pub(crate) fn note(&mut self, player: PlayerId, socket: Option<SocketId>)
        ensures { self.new ≡ slice_set self.old player (dialled_once socket (get_or self.old player no_dials)) }
    {
        let dials = self.rows[player as usize];
        self.rows[player as usize] = Dials {
            last: socket.or(dials.last),
            count: dials.count.saturating_add(1),
        };
    }
}
