//! A depositor.

ghost use Rattle.std.specs.Prelude.{◌≡◌};
ghost use Rattle.deposit_rules.specs.Views.{start};
ghost use Rattle.live_deposit.specs.States.{setting_for};

use definitions::PlayerId;
use deposit_rules::{DepositLine, DepositPhase};
use grid_world::Session;
use rosters::Logger;
use socket_station::ReadyList;
use std::marker::Model;

/// How many bytes are taken at most by one read of the shelf or of the socket.
pub const MOST_MOVED: usize = 4096;

/// How a deposit ended.
#[derive(Clone, Copy, Debug, PartialEq, Eq)]
pub enum Deposited {
    /// The log's last byte was given, or the logger wants a place at or past its end. That the
    /// logger has the bytes it doesn't say: a further deposit finds out.
    Sent,
    /// All polls were made, what they brought is handled, and a further one is licensed.
    GaveUp,
    /// `poll` failed: no further deposit is made.
    PollFault,
    /// The shelf failed.
    ShelfFault,
}

/// A player's end of a link to a live logger.
#[derive(Drop)]
pub struct Deposit {
    pub(crate) id: [u8; 32],
    pub(crate) player: PlayerId,
    pub(crate) logger: Logger,
    pub(crate) line: DepositLine,
    // whether the logger was dialled since the last poll
    pub(crate) is_dialled: bool,
    pub(crate) phase: DepositPhase,
    // what a read takes, and what a poll lists
    pub(crate) buffer: [u8; MOST_MOVED],
    pub(crate) ready: ReadyList,
}

impl Model for Deposit {
    ghost use Rattle.deposit_rules.specs.Views.{View};
    ghost use Rattle.live_deposit.specs.States.{setting_by};

    ghost Value = { View };

    ghost view = { λ d. record { setting = setting_by d.id d.player d.logger; phase = d.phase; line = d.line; is_dialled = d.is_dialled } };
}

impl Deposit {
    /// A depositor of the player's log of the session, for this logger. Nothing is dialled yet.
    pub fn new(logger: Logger, session: &Session, player: PlayerId) -> Deposit
        ensures { result ≡ start (setting_for logger session.now player) }
    {
        Deposit {
            id: *session.id(),
            player,
            logger,
            line: DepositLine::none(),
            is_dialled: false,
            phase: DepositPhase::Giving,
            buffer: [0; MOST_MOVED],
            ready: ReadyList::new(),
        }
    }
}
