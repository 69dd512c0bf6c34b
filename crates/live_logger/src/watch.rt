//! A live logger.

ghost use Rattle.std.specs.Prelude.{◌≡◌, false, IfOk};
ghost use Rattle.auditor.specs.Agreed.{AreOwned};
ghost use Rattle.auditor.specs.Audits.{StandsFor};
ghost use Rattle.log_streams.specs.Streams.{lists_of, owners_of};
ghost use Rattle.live_logger.specs.States.{LinksAll, new_watch};
ghost use Rattle.live_logger.specs.Reports.{ReportsNow, ReportsTold, ExhibitsNow};

use crate::board::Board;
use auditor::{Auditor, Exhibit, Report};
use definitions::Finding;
use grid_world::Session;
use rosters::Roster;
use socket_station::ReadyList;
use std::alloc::{AllocError, Global};
use std::marker::Model;

/// How many bytes one read takes at most.
pub const MOST_TAKEN: usize = 4096;

/// A service that takes all players' logs over sockets while they play.
#[derive(Drop)]
pub struct Watch {
    pub(crate) board: Board,
    // what a read takes, and what a poll lists
    pub(crate) buffer: [u8; MOST_TAKEN],
    pub(crate) ready: ReadyList,
}

impl Model for Watch {
    ghost use Rattle.live_logger.specs.States.{WatchState};

    ghost Value = { WatchState };

    ghost view = { λ w. w.board };
}

impl Watch {
    /// A logger of the session, which is to listen at the roster's own address, and knows each
    /// player by its link: the roster has one for each, by rising number. The allocator is kept:
    /// what comes is audited in its memory. An error comes where memory is wanting.
    pub fn new(alloc: Global, session: &Session, roster: Roster) -> Result<Watch, AllocError>
        requires { LinksAll session.now roster }
        ensures { IfOk result (λ w. w ≡ new_watch session.now roster) }
    {
        Ok(Watch {
            board: Board::new(alloc, session, roster)?,
            buffer: [0; MOST_TAKEN],
            ready: ReadyList::new(),
        })
    }

    /// The session.
    pub fn session(&self) -> &Session
        ensures { result.now ≡ self.now.view.setting.game }
    {
        self.board.books.session()
    }

    /// The auditor that took what came, for whoever prints what it shows. It stands for the lists that
    /// the history gives.
    pub fn auditor(&self) -> &Auditor
        ensures now { self.now.is_out_of_memory ≡ false → StandsFor self.now.view.setting.game (owners_of self.now.view.setting.game self.now.view.streams) (lists_of self.now.view.setting.game self.now.view.streams) result.now }

        // So the counts of agreed turns are those of the definitions.
        ensures owned { AreOwned self.now.view.setting.game (owners_of self.now.view.setting.game self.now.view.streams) (lists_of self.now.view.setting.game self.now.view.streams) }
    {
        self.board.books.auditor()
    }

    /// The report on the logs as far as they came: that on the lists that the history gives, as if
    /// the audit began afresh. It takes memory from `alloc`, and an error comes where that is
    /// wanting.
    pub fn report(&self, alloc: Global) -> Result<Report, AllocError>
        ensures now { IfOk result (λ r. ReportsNow self.now r) }
        ensures told { IfOk result (λ r. ReportsTold self.now r) }

        // So the report's counts of agreed turns are those of the definitions.
        ensures owned { AreOwned self.now.view.setting.game (owners_of self.now.view.setting.game self.now.view.streams) (lists_of self.now.view.setting.game self.now.view.streams) }
    {
        self.board.books.report(alloc)
    }

    /// The frames by which a finding of the report is shown. An error comes where memory is
    /// wanting.
    pub fn exhibit(&self, alloc: Global, finding: &Finding) -> Result<Exhibit, AllocError>
        ensures { IfOk result (λ x. ExhibitsNow self.now finding.now x) }
    {
        self.board.books.exhibit(alloc, finding)
    }
}
