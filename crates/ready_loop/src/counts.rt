//! How much was given to a player, and read of it.

ghost use Rattle.std.specs.Prelude.{◌≡◌, ◌==◌, find};
ghost use Rattle.definitions.specs.Honest.{made_count};
ghost use Rattle.loop_rules.specs.Tables.{seat_of};
ghost use Rattle.ready_loop.specs.Counts.{given_by, spent_by};

use crate::ready::Loop;
use definitions::{Place, PlayerId};
use socket_lines::Seat;

/// What was read of a player.
#[derive(Clone, Copy, Debug, PartialEq, Eq)]
pub struct Spent {
    /// How many bytes, on all sockets that it named, each HELLO with them. One on which a limit is passed by its HELLO counts whole.
    pub read: u32,
    /// How many of its WANT frames were obeyed.
    pub wants: u32,
}

/// How many of so many own frames the player has whose seat is one of these.
fn given_among(seats: &[Seat], player: PlayerId, made: Place) -> Place
    ensures { result ≡ given_by made (find (λ c. c.link.player == player) seats.now) }
{
    for seat in seats {
        if seat.link.player == player {
            return seat.given.min(made);
        }
    }
    0
}

/// How much was read of the player whose seat is one of these.
fn spent_among(seats: &[Seat], player: PlayerId) -> Spent
    ensures { result ≡ spent_by (find (λ c. c.link.player == player) seats.now) }
{
    for seat in seats {
        if seat.link.player == player {
            return Spent {
                read: seat.spent,
                wants: seat.wants,
            };
        }
    }
    Spent { read: 0, wants: 0 }
}

impl Loop {
    /// How many own frames the player has, as far as is known: those below the greatest place that it asked for, and those wholly given to it
    /// behind them, at most as many as are made. It is 0 for a player without a link.
    pub fn given(&self, player: PlayerId) -> Place
        ensures { result ≡ given_by (made_count self.now.peer.entries) (seat_of self.now.table player) }
    {
        given_among(self.table.seats(), player, self.peer.made_count())
    }

    /// How much was read of the player, nothing of one without a link.
    pub fn spent(&self, player: PlayerId) -> Spent
        ensures { result ≡ spent_by (seat_of self.now.table player) }
    {
        spent_among(self.table.seats(), player)
    }
}
