//! The sockets and the other players.

ghost use Rattle.std.specs.Prelude.{◌≡◌, ◌≤◌, [], Some, map, IfOk};
ghost use Rattle.definitions.specs.Lists.{EachIs};
ghost use Rattle.socket_lines.specs.Seats as S;
ghost use Rattle.loop_rules.specs.Tables.{at_seat};
ghost use Rattle.socket_table.specs.Finding.{IsSeatAt};
ghost use Rattle.socket_lines.specs.Seats.{new_seat};
ghost use Rattle.loop_rules.specs.Told.{DiffersBy};

use crate::finding::seat_index;
use definitions::{Place, PlayerId};
use peer_rules::Arrival;
use rosters::Link;
use socket_lines::{Line, Seat};
use std::alloc::{AllocError, Global};
use std::marker::Model;

/// How many bytes are taken at most by one read.
pub const MOST_TAKEN: usize = 1024;

/// How many lines there are at most after a poll: those accepted, one dialled for each player, and those that the poll lists.
pub const MOST_LINES: usize = 576;

/// The lines of sockets, in the order in which they were opened, the seats of the other players, and the frames that came and are not handled
/// yet.
#[derive(Drop)]
pub struct Table {
    pub(crate) lines: Vec<Line>,
    pub(crate) seats: Vec<Seat>,
    pub(crate) accepted: u32,
    pub(crate) waiting: Vec<Arrival>,
}

impl Model for Table {
    ghost use Rattle.std.specs.Prelude.{vec_capacity};
    ghost use Rattle.loop_rules.specs.Tables.{Table};
    ghost use Rattle.socket_table.specs.Sound.{IsSound};

    ghost Value = { Table };

    ghost view = { λ t. record { lines = t.lines.items; seats = t.seats.items; accepted = t.accepted; waiting = t.waiting.items } };

    ghost invariant = { λ t. IsSound (record { lines = t.lines.items; seats = t.seats.items; accepted = t.accepted; waiting = t.waiting.items }) (vec_capacity t.lines) (vec_capacity t.waiting) };
}

/// A seat for each link, of a player of whom nothing came. No place above this one is asked for.
fn make_seats(alloc: Global, links: &[Link], most: Place) -> Result<Vec<Seat>, AllocError>
    ensures { IfOk result (λ cs. cs.items ≡ map (new_seat most) links.now) }
{
    let mut seats = Vec::with_capacity(alloc, links.len())?;
    for link in links {
        seats.push(Seat::new(alloc, *link, most)?)?;
    }
    Ok(seats)
}

impl Table {
    /// A table in which no socket was opened and nothing came of the players of these links. No place above this one is asked for. All memory is
    /// taken here.
    pub fn new(alloc: Global, links: &[Link], most: Place) -> Result<Table, AllocError>
        requires { DiffersBy (λ l. l.player) links.now }
        ensures { IfOk result (λ t. t ≡ record { lines = []; seats = map (new_seat most) links.now; accepted = 0; waiting = [] }) }
    {
        let seats = make_seats(alloc, links, most)?;
        let lines = Vec::with_capacity(alloc, MOST_LINES + links.len())?;
        let waiting = Vec::with_capacity(alloc, MOST_TAKEN)?;
        Ok(Table {
            lines,
            seats,
            accepted: 0,
            waiting,
        })
    }

    /// The lines.
    pub fn lines(&self) -> &[Line]
        ensures { result.now ≡ self.now.lines }
    {
        &self.lines
    }

    /// The seats.
    pub fn seats(&self) -> &[Seat]
        ensures { result.now ≡ self.now.seats }
    {
        &self.seats
    }

    /// The frames that wait.
    pub fn waiting(&self) -> &[Arrival]
        ensures { result.now ≡ self.now.waiting }
    {
        &self.waiting
    }

    /// The frames that waited are handled.
    pub fn clear_waiting(&mut self)
        ensures { self.new ≡ record self.old { waiting = [] } }
    {
        self.waiting.clear();
    }

    /// A frame of the player was far: it is to be asked for this place, unless it was asked for it or a greater one.
    pub fn ask(&mut self, player: PlayerId, next: Place)
        requires { EachIs (λ c. next ≤ c.asks.most) self.old.seats }
        ensures { self.new ≡ at_seat player (S.asks next) self.old }
    {
        match seat_index(&self.seats, player) {
            None => {}
            Some(seat) => self.ask_seat(seat, player, next),
        }
    }

    /// The player of the seat is to be asked for this place.
    fn ask_seat(&mut self, seat: usize, player: PlayerId, next: Place)
        requires seat { IsSeatAt self.old.seats player (Some seat) }
        requires most { EachIs (λ c. next ≤ c.asks.most) self.old.seats }
        ensures { self.new ≡ at_seat player (S.asks next) self.old }
    {
        self.seats[seat].ask(next);
    }
}
