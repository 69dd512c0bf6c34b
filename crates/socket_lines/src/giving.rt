//! Which frame goes out next on a socket, and what is so behind some of its bytes.

ghost use Rattle.std.specs.Prelude.{◌≡◌, ◌≤◌, ◌<◌, ◌+◌, ◌^◌, length, drop, Option, Some, None};
ghost use Rattle.socket_lines.specs.Giving as G;

use crate::line::Line;
use crate::seat::Seat;
use crate::unsent::Unsent;
use definitions::{Place, PlayerId, TurnFrame};
use wire_frames::Frame;

/// What goes out next on a socket.
#[derive(Clone, Copy, Debug, PartialEq, Eq)]
pub enum Due {
    Nothing,
    /// A HELLO that asks for this place.
    Hello(Place),
    /// A WANT of this place.
    Want(Place),
    /// The own frame at the cursor.
    Own(TurnFrame),
}

/// The frame that is to be begun on the socket, where the own frame at its cursor is this one, if that may go out: a HELLO first, then the WANT
/// frames, and then the own frames.
fn due_on(line: &Line, seat: &Seat, own: Option<TurnFrame>) -> Due
    ensures { result ≡ G.due_on own (record { line = line.now; seat = seat.now }) }
{
    if let Some(next) = line.hello {
        return Due::Hello(next);
    }
    if line.name.is_none() {
        return Due::Nothing;
    }
    match (seat.asks.first(), own) {
        (Some(place), _) => Due::Want(place),
        (None, Some(frame)) => Due::Own(frame),
        (None, None) => Due::Nothing,
    }
}

/// The frame, said by this player of the session with this id to one to whom this pass is shown.
fn frame_of(due: Due, id: &[u8; 32], me: PlayerId, shows: [u8; 16]) -> Option<Frame>
    ensures { result ≡ G.frame_of (record { id = id.now; me = me }) shows due }
{
    match due {
        Due::Nothing => None,
        Due::Hello(next) => Some(Frame::Hello {
            id: *id,
            player: me,
            pass: shows,
            next,
        }),
        Due::Want(place) => Some(Frame::Want { place }),
        Due::Own(frame) => Some(Frame::Turn(frame)),
    }
}

/// The bytes that go out next on the socket, none where nothing is due: what is left of the frame begun, or the frame that is to be begun.
pub fn due_bytes(
    line: &Line,
    seat: &Seat,
    id: &[u8; 32],
    me: PlayerId,
    own: Option<TurnFrame>,
) -> Unsent
    ensures { result ≡ G.due_bytes (record { id = id.now; me = me }) own (record { line = line.now; seat = seat.now }) }
{
    if !line.unsent.is_empty() {
        return line.unsent.copy();
    }
    let mut due = Unsent::new();
    if let Some(frame) = frame_of(due_on(line, seat, own), id, me, seat.link.shows) {
        due.put(&frame);
    }
    due
}

/// A frame is begun, and is due no more.
fn mark(line: &mut Line, seat: &mut Seat, due: Due)
    ensures { record { line = line.new; seat = seat.new } ≡ G.marked due (record { line = line.old; seat = seat.old }) }
{
    match due {
        Due::Nothing => {}
        Due::Hello(_) => line.hello = None,
        Due::Want(_) => seat.asks.take_first(),
        Due::Own(_) => line.sending = Some(line.cursor),
    }
}

/// The frame that was given in part is wholly given: behind an own one the cursor rises by one, or goes where a WANT sent it.
fn end(line: &mut Line, seat: &mut Seat, sending: Option<Place>)
    requires { G.IsPlace sending }
    ensures { record { line = line.new; seat = seat.new } ≡ G.ended_with sending (record { line = line.old; seat = seat.old }) }
{
    if let Some(place) = sending {
        line.sending = None;
        line.cursor = line.jump.unwrap_or(place + 1);
        line.jump = None;
        seat.reach(place + 1);
    }
}

/// So many of the bytes that go out next were given.
pub fn give(line: &mut Line, seat: &mut Seat, own: Option<TurnFrame>, due: Unsent, count: usize)
    requires count { count ≤ length due }
    requires places { G.IsPlace line.old.sending }
    requires cursor { (f : TurnFrame) → own ≡ Some f → line.old.cursor + 1 < 2 ^ 32 }
    ensures { (s : G.Speaker) → due ≡ G.due_bytes s own (record { line = line.old; seat = seat.old }) → record { line = line.new; seat = seat.new } ≡ G.gave s own count (record { line = line.old; seat = seat.old }) }
{
    if line.unsent.is_empty() {
        let next = due_on(line, seat, own);
        mark(line, seat, next);
    }
    line.unsent = due;
    line.unsent.give(count);
    if line.unsent.is_empty() {
        let sending = line.sending;
        end(line, seat, sending);
    }
}

/// Whether something is due on the socket and not given, where so many own frames are made.
pub fn has_due(line: &Line, seat: &Seat, made: Place) -> bool
    ensures { result ≡ G.has_due made (record { line = line.now; seat = seat.now }) }
{
    if !line.unsent.is_empty() || line.hello.is_some() {
        return true;
    }
    line.name.is_some() && (seat.asks.first().is_some() || line.cursor < made)
}
