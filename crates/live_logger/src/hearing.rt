//! What the bytes do that come on a socket.

ghost use Rattle.std.specs.Prelude.{◌≡◌, ℕ, ◌≤◌, ◌<◌, false, true, Some, None, length, slice_get, OnOk, OnErr};
ghost use Rattle.definitions.specs.World.{players_of};
ghost use Rattle.wire_frames.specs.Reading.{fed_step};
ghost use Rattle.socket_lines.specs.declared.line.Line.{Line};
ghost use Rattle.socket_lines.specs.Lines.{unnamed_room};
ghost use Rattle.socket_list.specs.Sockets.{IsAt};
ghost use Rattle.log_streams.specs.Streams.{room_at};
ghost use Rattle.watch_rules.specs.Hearing as H;
ghost use Rattle.live_logger.specs.States.{with_view};

use crate::board::Board;
use definitions::PlayerId;
use socket_station::SocketId;
use std::alloc::AllocError;
use wire_frames::{FedWhat, Frame};

impl Board {
    /// A rule asks to shut the socket.
    fn doom(&mut self, place: usize, socket: SocketId)
        requires { IsAt self.old.view.sockets place socket }
        ensures { self.new ≡ with_view (H.to_shut socket self.old.view) self.old }
    {
        self.sockets.doom(place, socket);
    }

    /// A HELLO of the player named the socket: the others of that name are to be shut, and one
    /// WANT is due, from the first byte on that there is not of the player's log.
    fn name(&mut self, place: usize, socket: SocketId, player: PlayerId)
        requires at { IsAt self.old.view.sockets place socket }
        requires player { player < players_of self.old.view.setting.game }
        requires whole { self.old.is_out_of_memory ≡ false }
        ensures { self.new ≡ with_view (H.named self.old.view socket player) self.old }
    {
        let want = Frame::Want {
            place: self.books.count(player),
        };
        self.sockets.free_name(player);
        self.sockets.greet(place, socket, player, &want);
    }

    /// A HELLO is the first frame on the socket.
    fn hear_hello(
        &mut self,
        place: usize,
        socket: SocketId,
        id: &[u8; 32],
        player: PlayerId,
        pass: &[u8; 16],
    )
        requires at { IsAt self.old.view.sockets place socket }
        requires whole { self.old.is_out_of_memory ≡ false }
        ensures { (next : ℕ) → self.new ≡ with_view (H.heard_first self.old.view socket (Frame.Hello id.now player pass.now next)) self.old }
    {
        self.books.facts();
        if self.names(id, player, pass) {
            self.name(place, socket, player);
        } else {
            self.doom(place, socket);
        }
    }

    /// This is the first frame on the socket.
    fn hear_first(&mut self, place: usize, socket: SocketId, frame: &Frame)
        requires at { IsAt self.old.view.sockets place socket }
        requires whole { self.old.is_out_of_memory ≡ false }
        ensures { self.new ≡ with_view (H.heard_first self.old.view socket frame.now) self.old }
    {
        match frame {
            Frame::Hello {
                id,
                player,
                pass,
                ..
            } => self.hear_hello(place, socket, id, *player, pass),
            Frame::Turn(_) => self.doom(place, socket),
            Frame::Want { .. } => self.doom(place, socket),
        }
    }

    /// This was found of the first frame on the socket.
    fn hear(&mut self, place: usize, socket: SocketId, what: FedWhat)
        requires at { IsAt self.old.view.sockets place socket }
        requires whole { self.old.is_out_of_memory ≡ false }
        ensures { self.new ≡ with_view (H.heard self.old.view socket what) self.old }
    {
        match what {
            FedWhat::More => {}
            FedWhat::Bad(_) => self.doom(place, socket),
            FedWhat::Whole(frame) => self.hear_first(place, socket, &frame),
        }
    }

    /// Bytes came on the socket, which has no name.
    fn greet(&mut self, place: usize, socket: SocketId, bytes: &[u8])
        requires at { IsAt self.old.view.sockets place socket }
        requires whole { self.old.is_out_of_memory ≡ false }
        requires few { (l : Line) → slice_get self.old.view.sockets.lines place ≡ Some l → length bytes.now ≤ unnamed_room l }
        ensures { (l : Line) → slice_get self.old.view.sockets.lines place ≡ Some l → self.new ≡ with_view (H.greeted self.old.view socket (length bytes.now) (fed_step l.reader bytes.now)) self.old }
    {
        let fed = self.sockets.feed(place, socket, bytes);
        self.hear(place, socket, fed.what);
    }

    /// Bytes came on a socket of this player, one at least, and no more than may still be taken of
    /// its log. An error comes where the books' allocator has no memory.
    fn log(&mut self, player: PlayerId, bytes: &[u8]) -> Result<(), AllocError>
        requires some { 0 < length bytes.now }
        requires whole { self.old.is_out_of_memory ≡ false }
        requires room { length bytes.now ≤ room_at (slice_get self.old.view.streams player) }
        ensures all { OnOk result (self.new ≡ with_view (H.logged self.old.view player bytes.now) self.old) }
        ensures memory { OnErr result (self.new.is_out_of_memory ≡ true) }
    {
        self.books.facts();
        self.books.take(player, bytes)
    }

    /// Bytes came on the socket, one at least, and no more than may be taken on it. An error comes
    /// where the books' allocator has no memory.
    pub(crate) fn take(
        &mut self,
        place: usize,
        socket: SocketId,
        bytes: &[u8],
    ) -> Result<(), AllocError>
        requires at { IsAt self.old.view.sockets place socket }
        requires some { 0 < length bytes.now }
        requires whole { self.old.is_out_of_memory ≡ false }
        requires room { (l : Line) → slice_get self.old.view.sockets.lines place ≡ Some l → length bytes.now ≤ H.room_on self.old.view l }
        ensures all { (l : Line) → slice_get self.old.view.sockets.lines place ≡ Some l → OnOk result (self.new ≡ with_view (H.took_by self.old.view socket bytes.now l l.name) self.old) }
        ensures memory { OnErr result (self.new.is_out_of_memory ≡ true) }
    {
        match self.name_at(place) {
            None => {
                self.greet(place, socket, bytes);
                Ok(())
            }
            Some(player) => self.log(player, bytes),
        }
    }
}
