//! What goes out on a socket.

ghost use Rattle.std.specs.Prelude.{◌≡◌, ◌≤◌, ◌<◌, ◌+◌, ◌^◌, Some, None, length, slice_get};
ghost use Rattle.definitions.specs.declared.frames.TurnFrame.{TurnFrame};
ghost use Rattle.socket_lines.specs.Lines.{player_of};
ghost use Rattle.socket_lines.specs.Giving.{Speaker};
ghost use Rattle.loop_rules.specs.Tables.{desk_of};
ghost use Rattle.loop_rules.specs.Rules.{due_at};
ghost use Rattle.loop_rules.specs.Licence.{has_due_on};
ghost use Rattle.loop_rules.specs.After.{gave_with};
ghost use Rattle.socket_table.specs.Finding.{IsAt, IsDeskSeat};

use crate::finding::seat_index;
use crate::table::Table;
use definitions::{Place, PlayerId, TurnFrame};
use socket_lines::{Line, Unsent, due_bytes, give, has_due};
use socket_station::SocketId;

impl Table {
    /// The place of the seat of the player whose the line is, if there is one. Nothing is due on a line without a seat.
    fn desk_seat(&self, place: usize) -> Option<usize>
        requires { place < length self.now.lines }
        ensures { (l : Line) → slice_get self.now.lines place ≡ Some l → IsDeskSeat self.now (player_of l) result }
    {
        match self.lines[place].player() {
            None => None,
            Some(player) => seat_index(&self.seats, player),
        }
    }

    /// The bytes that go out next on the socket, none where nothing is due. They are said by this player of the session with this id, where the
    /// own frame at the cursor of the line is this one, if it may go out.
    pub fn due(&self, place: usize, id: &[u8; 32], me: PlayerId, own: Option<TurnFrame>) -> Unsent
        requires { place < length self.now.lines }
        ensures { (l : Line) → slice_get self.now.lines place ≡ Some l → result ≡ due_at (record { id = id.now; me = me }) own (desk_of self.now l) }
    {
        match self.desk_seat(place) {
            None => Unsent::new(),
            Some(seat) => due_bytes(&self.lines[place], &self.seats[seat], id, me, own),
        }
    }

    /// Whether something is due on the socket and not given, where so many own frames are made.
    pub fn has_due(&self, place: usize, made: Place) -> bool
        requires { place < length self.now.lines }
        ensures { (l : Line) → slice_get self.now.lines place ≡ Some l → result ≡ has_due_on made self.now l }
    {
        match self.desk_seat(place) {
            None => false,
            Some(seat) => has_due(&self.lines[place], &self.seats[seat], made),
        }
    }

    /// So many of the bytes that go out next were given on the socket, by the seat of its player.
    fn give_at(
        &mut self,
        place: usize,
        _socket: SocketId,
        seat: usize,
        own: Option<TurnFrame>,
        due: Unsent,
        count: usize,
    )
        requires at { IsAt self.old place _socket }
        requires seat { (l : Line) → slice_get self.old.lines place ≡ Some l → IsDeskSeat self.old (player_of l) (Some seat) }
        requires count { count ≤ length due }
        requires own { (l : Line) → (f : TurnFrame) → slice_get self.old.lines place ≡ Some l → own ≡ Some f → l.cursor + 1 < 2 ^ 32 }
        requires due { (l : Line) → slice_get self.old.lines place ≡ Some l → (s : Speaker) × (due ≡ due_at s own (desk_of self.old l)) }
        ensures { (l : Line) → (s : Speaker) → slice_get self.old.lines place ≡ Some l → due ≡ due_at s own (desk_of self.old l) → self.new ≡ gave_with s own count self.old (desk_of self.old l) }
    {
        let line = &mut self.lines[place];
        give(line, &mut self.seats[seat], own, due, count);
        line.is_blocked = false;
    }

    /// So many of the bytes that go out next were given on the socket, whose last write that is.
    pub fn give(
        &mut self,
        place: usize,
        socket: SocketId,
        own: Option<TurnFrame>,
        due: Unsent,
        count: usize,
    )
        requires at { IsAt self.old place socket }
        requires count { count ≤ length due }
        requires own { (l : Line) → (f : TurnFrame) → slice_get self.old.lines place ≡ Some l → own ≡ Some f → l.cursor + 1 < 2 ^ 32 }
        requires due { (l : Line) → slice_get self.old.lines place ≡ Some l → (s : Speaker) × (due ≡ due_at s own (desk_of self.old l)) }
        ensures { (l : Line) → (s : Speaker) → slice_get self.old.lines place ≡ Some l → due ≡ due_at s own (desk_of self.old l) → self.new ≡ gave_with s own count self.old (desk_of self.old l) }
    {
        match self.desk_seat(place) {
            None => {}
            Some(seat) => self.give_at(place, socket, seat, own, due, count),
        }
    }
}
