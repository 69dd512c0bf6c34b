//! What the frames do that come on a socket.

ghost use Rattle.std.specs.Prelude.{◌≡◌, ◌≤◌, ◌<◌, ◌+◌, true, false, Some, None, length, slice_get};
ghost use Rattle.socket_table.specs.declared.table.TheConstants.{MOST_TAKEN};
ghost use Rattle.std.specs.List.{fold};
ghost use Rattle.socket_lines.specs.Lines.{moved_to};
ghost use Rattle.socket_lines.specs.Seats as S;
ghost use Rattle.loop_rules.specs.Tables.{at_line, at_seat, seat_of};
ghost use Rattle.loop_rules.specs.Hearing.{Hearer, named, heard_first, heard_named, obeyed, arrived, heard};
ghost use Rattle.socket_table.specs.Finding.{IsAt, IsSeatAt};
ghost use Rattle.socket_table.specs.Hearers.{ArePlayers};

use crate::finding::seat_index;
use crate::hears::Hears;
use crate::table::Table;
use definitions::{Place, PlayerId, TurnFrame};
use peer_rules::Arrival;
use socket_lines::{Line, Seat};
use socket_station::SocketId;
use wire_frames::Frame;

impl Table {
    /// A HELLO of the player named the socket, which asks for own frames from this place on. The own HELLO asks for the other place.
    fn name(
        &mut self,
        place: usize,
        socket: SocketId,
        player: PlayerId,
        seat: usize,
        from: Place,
        next: Place,
    )
        requires at { IsAt self.old place socket }
        requires unnamed { (l : Line) → slice_get self.old.lines place ≡ Some l → l.name ≡ None }
        requires seat { IsSeatAt self.old.seats player (Some seat) }
        requires unspent { (c : Seat) → slice_get self.old.seats seat ≡ Some c → S.is_spent c ≡ false }
        ensures { (l : Line) → (h : Hearer) → slice_get self.old.lines place ≡ Some l → h.next player ≡ next → self.new ≡ named h self.old socket l player from }
    {
        let taken = self.lines[place].taken;
        self.free_name(player);
        self.put_name(place, socket, player, from, next);
        self.put_namer(seat, player, taken, from);
    }

    /// A HELLO is the first frame on the socket.
    fn hear_hello<H: Hears>(
        &mut self,
        place: usize,
        socket: SocketId,
        id: &[u8; 32],
        player: PlayerId,
        pass: &[u8; 16],
        from: Place,
        hears: &H,
    )
        requires at { IsAt self.old place socket }
        requires unnamed { (l : Line) → slice_get self.old.lines place ≡ Some l → l.name ≡ None }
        requires players { ArePlayers (H.players hears.now) self.old.seats }
        ensures { (l : Line) → slice_get self.old.lines place ≡ Some l → self.new ≡ heard_first (H.hearer hears.now) self.old socket l (Frame.Hello id.now player pass.now from) }
    {
        match self.naming_seat(place, hears.id(), id, player, pass) {
            None => self.doom(place, socket),
            Some(seat) => { self.name(place, socket, player, seat, from, hears.next(player)) }
        }
    }

    /// The first frame on the socket: a HELLO that names it, or one for which it is to be shut.
    fn hear_first<H: Hears>(&mut self, place: usize, socket: SocketId, frame: &Frame, hears: &H)
        requires at { IsAt self.old place socket }
        requires unnamed { (l : Line) → slice_get self.old.lines place ≡ Some l → l.name ≡ None }
        requires players { ArePlayers (H.players hears.now) self.old.seats }
        ensures { (l : Line) → slice_get self.old.lines place ≡ Some l → self.new ≡ heard_first (H.hearer hears.now) self.old socket l frame.now }
    {
        match frame {
            Frame::Hello {
                id,
                player,
                pass,
                next,
            } => self.hear_hello(place, socket, id, *player, pass, *next, hears),
            Frame::Turn(_) => self.doom(place, socket),
            Frame::Want { .. } => self.doom(place, socket),
        }
    }

    /// A WANT moves the cursor.
    fn move_line(&mut self, place: usize, socket: SocketId, want: Place)
        requires { IsAt self.old place socket }
        ensures { self.new ≡ at_line socket (moved_to want) self.old }
    {
        self.lines[place].move_to(want);
    }

    /// A WANT of the player is obeyed.
    fn obey_seat(&mut self, seat: usize, player: PlayerId)
        requires seat { IsSeatAt self.old.seats player (Some seat) }
        requires may { (c : Seat) → slice_get self.old.seats seat ≡ Some c → S.may_want c ≡ true }
        ensures { self.new ≡ at_seat player S.obeys self.old }
    {
        self.seats[seat].obey();
    }

    /// The player asked for the own frames from this place on.
    fn reach_seat(&mut self, seat: usize, player: PlayerId, want: Place)
        requires { IsSeatAt self.old.seats player (Some seat) }
        ensures { self.new ≡ at_seat player (S.reaches want) self.old }
    {
        self.seats[seat].reach(want);
    }

    /// A WANT of the player whose seat that is: it is obeyed as long as not too many were.
    fn obey(&mut self, place: usize, socket: SocketId, seat: usize, player: PlayerId, want: Place)
        requires at { IsAt self.old place socket }
        requires seat { IsSeatAt self.old.seats player (Some seat) }
        ensures { self.new ≡ obeyed self.old socket player want (seat_of self.old player) }
    {
        if self.seats[seat].may_want() {
            self.move_line(place, socket, want);
            self.obey_seat(seat, player);
        }
    }

    /// A WANT of the player.
    fn hear_want(&mut self, place: usize, socket: SocketId, player: PlayerId, want: Place)
        requires { IsAt self.old place socket }
        ensures { self.new ≡ at_seat player (S.reaches want) (obeyed self.old socket player want (seat_of self.old player)) }
    {
        match seat_index(&self.seats, player) {
            None => {}
            Some(seat) => {
                self.obey(place, socket, seat, player, want);
                self.reach_seat(seat, player, want);
            }
        }
    }

    /// A frame of a turn waits to be handled.
    fn wait(&mut self, player: PlayerId, frame: &TurnFrame)
        requires { length self.old.waiting < MOST_TAKEN }
        ensures { self.new ≡ arrived self.old player frame.now }
    {
        self.waiting
            .push(Arrival {
                player,
                frame: *frame,
            })
            .unwrap();
    }

    /// A further frame on the socket, which has this name.
    fn hear_named(&mut self, place: usize, socket: SocketId, player: PlayerId, frame: &Frame)
        requires at { IsAt self.old place socket }
        requires room { length self.old.waiting < MOST_TAKEN }
        ensures { self.new ≡ heard_named self.old socket player frame.now }
    {
        match frame {
            Frame::Hello { .. } => self.doom(place, socket),
            Frame::Turn(turn) => {
                if turn.player() == player {
                    self.wait(player, turn);
                } else {
                    self.doom(place, socket);
                }
            }
            Frame::Want { place: want } => self.hear_want(place, socket, player, *want),
        }
    }

    /// A frame on the socket. Behind one for which it is to be shut none counts.
    fn hear<H: Hears>(&mut self, place: usize, socket: SocketId, frame: &Frame, hears: &H)
        requires at { IsAt self.old place socket }
        requires room { length self.old.waiting < MOST_TAKEN }
        requires players { ArePlayers (H.players hears.now) self.old.seats }
        ensures { self.new ≡ heard (H.hearer hears.now) socket self.old frame.now }
    {
        let line = &self.lines[place];
        if line.is_wrong {
            return;
        }
        match line.name {
            None => self.hear_first(place, socket, frame, hears),
            Some(player) => self.hear_named(place, socket, player, frame),
        }
    }

    /// Some frames on the socket, one behind the other.
    pub(crate) fn hear_all<H: Hears>(
        &mut self,
        place: usize,
        socket: SocketId,
        frames: &[Frame],
        hears: &H,
    )
        requires at { IsAt self.old place socket }
        requires room { length self.old.waiting + length frames.now ≤ MOST_TAKEN }
        requires players { ArePlayers (H.players hears.now) self.old.seats }
        ensures { self.new ≡ fold (heard (H.hearer hears.now) socket) self.old frames.now }
    {
        for frame in frames {
            self.hear(place, socket, frame, hears);
        }
    }
}
