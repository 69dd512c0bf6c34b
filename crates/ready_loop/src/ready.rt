//! A loop.

ghost use Rattle.std.specs.Prelude.{◌≡◌, ◌≤◌, ◌<◌, IfOk, not, is_some};
ghost use Rattle.definitions.specs.Findings.{is_clean};
ghost use Rattle.definition_laws.specs.First.{finding_of_log};
ghost use Rattle.definitions.specs.World.{players_of};
ghost use Rattle.rosters.specs.Rosters.{LinksOthers};
ghost use Rattle.peer_core.specs.Standing.{IsStanding};
ghost use Rattle.ready_loop.specs.Beginning.{new_loop};

use definitions::Finding;
use peer_core::Peer;
use peer_rules::Phase;
use rosters::Roster;
use session_log::LogWriter;
use socket_station::ReadyList;
use socket_table::{FrameList, MOST_TAKEN, Table};
use std::alloc::{AllocError, Global};
use std::marker::Model;

/// The loop of a peer over sockets and a log.
#[derive(Drop)]
pub struct Loop {
    pub(crate) peer: Peer,
    pub(crate) roster: Roster,
    // how many entries the peer had when the loop was made, how many are kept, and how many of these the last sync found
    pub(crate) over: usize,
    pub(crate) kept: usize,
    pub(crate) synced: usize,
    pub(crate) phase: Phase,
    pub(crate) table: Table,
    // how many of the frames that wait are handled
    pub(crate) handled: usize,
    pub(crate) writer: LogWriter,
    // what a read takes, the frames in it, and what a poll lists
    pub(crate) buffer: [u8; MOST_TAKEN],
    pub(crate) frames: FrameList,
    pub(crate) ready: ReadyList,
}

impl Model for Loop {
    ghost use Rattle.ready_loop.specs.States.{LoopState, IsFit};

    ghost Value = { LoopState };

    ghost view = { λ l. record { peer = l.peer; roster = l.roster; over = l.over; kept = l.kept; synced = l.synced; phase = l.phase; table = l.table; handled = l.handled } };

    ghost invariant = { λ l. IsFit (record { peer = l.peer; roster = l.roster; over = l.over; kept = l.kept; synced = l.synced; phase = l.phase; table = l.table; handled = l.handled }) l.writer };
}

impl Loop {
    /// A loop of the peer, which goes on from the entries that the peer has. All memory of the loop is taken here.
    pub fn new(alloc: Global, peer: Peer, roster: Roster) -> Result<Loop, AllocError>
        requires { LinksOthers peer.me (players_of peer.game) roster }
        ensures { IfOk result (λ l. l ≡ new_loop peer roster) }
    {
        let session = peer.session();
        let table = Table::new(alloc, roster.links(), 2 * session.turns())?;
        let frames = FrameList::new(alloc)?;
        let writer = LogWriter::new(session, peer.me());
        let over = peer.entries().len();
        Ok(Loop {
            peer,
            roster,
            over,
            kept: 0,
            synced: 0,
            phase: Phase::Fresh,
            table,
            handled: 0,
            writer,
            buffer: [0; MOST_TAKEN],
            frames,
            ready: ReadyList::new(),
        })
    }

    /// What holds of the peer: its session's numbers are within their limits, and its log is honest.
    pub fn facts(&self)
        ensures { IsStanding self.now.peer }
    {
        self.peer.facts();
    }

    /// The first finding of the log, if it has one.
    pub(crate) fn finding(&self) -> Option<Finding>
        ensures first { result ≡ finding_of_log self.now.peer.game self.now.peer.entries }
        ensures clean { is_some result ≡ not (is_clean self.now.peer.game self.now.peer.entries) }
    {
        self.peer.finding()
    }

    /// The peer.
    pub fn peer(&self) -> &Peer
        ensures { result.now ≡ self.now.peer }
    {
        &self.peer
    }
}
