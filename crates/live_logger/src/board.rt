//! What a logger knows, and what each answer of its station changes of it. A socket is named by
//! its place in the list, from 0, and by the station's number of it.

ghost use Rattle.std.specs.Prelude.{◌≡◌, ◌≤◌, false, true, Some, length, slice_get, IfOk};
ghost use Rattle.definitions.specs.World.{players_of};
ghost use Rattle.socket_lines.specs.declared.line.Line.{Line};
ghost use Rattle.socket_lines.specs.Lines.{closed, quieted, blocked, doomed};
ghost use Rattle.socket_list.specs.Opening.{AreNewTo};
ghost use Rattle.socket_list.specs.Sockets.{IsAt, gave_line, polled_on};
ghost use Rattle.watch_rules.specs.declared.phases.WatchPhase.TheVariants.{Running, PollFault};
ghost use Rattle.watch_rules.specs.Hearing.{with_sockets};
ghost use Rattle.watch_rules.specs.After.{in_phase, on_line};
ghost use Rattle.watch_rules.specs.Licence.{all_is_shut};
ghost use Rattle.live_logger.specs.States.{new_watch, with_view};

use grid_world::Session;
use log_books::Books;
use rosters::Roster;
use socket_list::Sockets;
use socket_station::ready_list::MOST_READY;
use socket_station::{Ready, SocketId};
use std::alloc::{AllocError, Global};
use std::marker::Model;
use watch_rules::WatchPhase;

/// The sockets, the books, and how far the logger came.
#[derive(Drop)]
pub(crate) struct Board {
    pub(crate) roster: Roster,
    pub(crate) phase: WatchPhase,
    pub(crate) sockets: Sockets,
    pub(crate) books: Books,
}

impl Model for Board {
    ghost use Rattle.live_logger.specs.States.{WatchState};

    ghost Value = { WatchState };

    ghost view = { λ b. record { view = record { setting = record { game = b.books.game; roster = b.roster }; phase = b.phase; sockets = b.sockets; streams = b.books.streams }; is_out_of_memory = b.books.is_out_of_memory } };
}

impl Board {
    /// The board before the first call. All memory is taken here but what the books take for what
    /// comes. An error comes where it is wanting.
    pub(crate) fn new(alloc: Global, session: &Session, roster: Roster) -> Result<Board, AllocError>
        ensures { IfOk result (λ b. b ≡ new_watch session.now roster) }
    {
        Ok(Board {
            roster,
            phase: WatchPhase::Fresh,
            sockets: Sockets::new(alloc)?,
            books: Books::new(alloc, session)?,
        })
    }

    /// It listens.
    pub(crate) fn listens(&mut self)
        ensures { self.new ≡ with_view (in_phase Running self.old.view) self.old }
    {
        self.phase = WatchPhase::Running;
    }

    /// `listen` or `poll` failed: nothing is heard any more.
    pub(crate) fn deafens(&mut self)
        ensures { self.new ≡ with_view (in_phase PollFault self.old.view) self.old }
    {
        self.phase = WatchPhase::PollFault;
    }

    /// A read of the socket found nothing.
    pub(crate) fn quiet(&mut self, place: usize, socket: SocketId)
        requires { IsAt self.old.view.sockets place socket }
        ensures { self.new ≡ with_view (on_line socket quieted self.old.view) self.old }
    {
        self.sockets.quiet(place, socket);
    }

    /// A write on the socket was refused for now.
    pub(crate) fn block(&mut self, place: usize, socket: SocketId)
        requires { IsAt self.old.view.sockets place socket }
        ensures { self.new ≡ with_view (on_line socket blocked self.old.view) self.old }
    {
        self.sockets.block(place, socket);
    }

    /// The socket ended, failed or was shut.
    pub(crate) fn close(&mut self, place: usize, socket: SocketId)
        requires { IsAt self.old.view.sockets place socket }
        ensures { self.new ≡ with_view (on_line socket closed self.old.view) self.old }
    {
        self.sockets.close(place, socket);
    }

    /// So many of the bytes due were given on the socket.
    pub(crate) fn give(&mut self, place: usize, socket: SocketId, count: usize)
        requires at { IsAt self.old.view.sockets place socket }
        requires count { (l : Line) → slice_get self.old.view.sockets.lines place ≡ Some l → count ≤ length l.unsent }
        ensures { self.new ≡ with_view (on_line socket (gave_line count) self.old.view) self.old }
    {
        self.sockets.give(place, socket, count);
    }

    /// A poll was made and listed this.
    pub(crate) fn polled(&mut self, ready: &[Ready])
        requires shut { all_is_shut self.old.view ≡ true }
        requires few { length ready.now ≤ MOST_READY }
        requires new { AreNewTo self.old.view.sockets.lines ready.now }
        ensures { self.new ≡ with_view (with_sockets (polled_on ready.now self.old.view.sockets) self.old.view) self.old }
    {
        self.sockets.polled(ready);
    }
}
