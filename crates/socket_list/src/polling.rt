//! A poll is made, and sockets open.

ghost use Rattle.std.specs.Prelude.{◌≡◌, ◌≤◌, ◌<◌, ◌∷◌, [], true, length};
ghost use Rattle.socket_lines.specs.Lines.{woken};
ghost use Rattle.loop_rules.specs.Told.{IsNotIn};
ghost use Rattle.socket_list.specs.declared.sockets.TheConstants.{MOST_SOCKETS};
ghost use Rattle.socket_list.specs.Opening.{AreNewTo};
ghost use Rattle.socket_list.specs.Sockets.{at_line, opened_on, listed, rested, polled_on};
ghost use Rattle.socket_list.specs.Sound.{none_wrong};

use crate::lines::{add, drop_closed, wake_all};
use crate::sockets::Sockets;
use socket_lines::{Line, MOST_ACCEPTED};
use socket_station::ready_list::MOST_READY;
use socket_station::{Ready, SocketId};

impl Sockets {
    /// A socket that was listed may be read and written again.
    fn wake(&mut self, socket: SocketId)
        ensures { self.new ≡ at_line socket woken self.old }
    {
        wake_all(&mut self.lines, socket);
    }

    /// A new socket was accepted: one beyond the most that are is to be shut.
    fn open(&mut self, socket: SocketId)
        requires new { IsNotIn socket self.old.lines }
        requires few { length self.old.lines < MOST_SOCKETS }
        ensures { self.new ≡ opened_on socket self.old }
    {
        if self.accepted < MOST_ACCEPTED {
            add(&mut self.lines, Line::accepted(socket, false));
            self.accepted += 1;
        } else {
            add(&mut self.lines, Line::accepted(socket, true));
        }
    }

    /// Closed sockets go; the others are no more than are accepted at most.
    fn rest(&mut self)
        requires { none_wrong self.old ≡ true }
        ensures sockets { self.new ≡ rested self.old }
        ensures few { length self.new.lines ≤ MOST_ACCEPTED }
    {
        drop_closed(&mut self.lines);
    }

    /// A poll listed this.
    fn list(&mut self, item: Ready)
        requires new { AreNewTo self.old.lines (item ∷ []) }
        requires few { length self.old.lines < MOST_SOCKETS }
        ensures { self.new ≡ listed self.old item }
    {
        match item {
            Ready::Opened(socket) => self.open(socket),
            Ready::Socket(socket) => self.wake(socket),
        }
    }

    /// A poll was made and listed this: closed sockets go, sockets open, and others may be read
    /// and written again. No open socket is left that is to be shut, and those that open are new.
    pub fn polled(&mut self, ready: &[Ready])
        requires wrong { none_wrong self.old ≡ true }
        requires few { length ready.now ≤ MOST_READY }
        requires new { AreNewTo self.old.lines ready.now }
        ensures { self.new ≡ polled_on ready.now self.old }
    {
        self.rest();
        for item in ready {
            self.list(*item);
        }
    }
}
