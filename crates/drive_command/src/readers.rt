//! A reader of the bytes that come from each player.

ghost use Rattle.std.specs.Prelude.{◌≡◌, ◌<◌, ◌+◌, ◌≤◌, ◌^◌, length, drop, get_or, replicate};
ghost use Rattle.wire_frames.specs.Reading.{at_start, IsFedSo};
ghost use Rattle.wire_frames.specs.Streams.{given_of, given_on};
ghost use Rattle.drive_command.specs.Driven.{last_reader, with_reader};

use definitions::PlayerId;
use definitions::limits::{MOST_PLAYERS, MOST_PLAYERS_AT_FIRST};
use grid_world::Session;
use std::array::from_fn;
use std::marker::Model;
use wire_frames::{Fed, FrameReader};

/// How many readers there are: one for each player that a session may have.
pub(crate) const READERS: usize = MOST_PLAYERS as usize;

/// The last player whose bytes a script may bring: the last that a session of this version may have.
pub(crate) fn last_reader(session: &Session) -> PlayerId
    ensures value { result ≡ last_reader session.now }
    ensures known { result < READERS }
{
    if session.version() == 1 {
        MOST_PLAYERS_AT_FIRST - 1
    } else {
        MOST_PLAYERS - 1
    }
}

/// The readers of the players.
#[derive(Drop)]
pub(crate) struct Readers {
    readers: [FrameReader; READERS],
}

impl Model for Readers {
    ghost use Rattle.std.specs.Prelude.{◌≡◌, List, length};
    ghost use Rattle.wire_frames.specs.Reading.{Reading};
    ghost use Rattle.drive_command.specs.declared.readers.TheConstants.{READERS};

    ghost Value = { List Reading };

    ghost view = { λ r. r.readers };

    ghost invariant = { λ r. length r.readers ≡ READERS };
}

impl Readers {
    /// Readers to whom nothing came.
    pub(crate) fn new() -> Readers
        ensures { result ≡ replicate READERS at_start }
    {
        let readers = from_fn(
            |_player|
                ensures { result ≡ at_start }
            { FrameReader::new() },
        );
        Readers { readers }
    }

    /// Reads on in the bytes that come from a player, up to the end of the first frame that ends in these.
    pub(crate) fn feed(&mut self, player: PlayerId, bytes: &[u8]) -> Fed
        requires known { player < READERS }
        requires few { (get_or self.old player at_start).place + length bytes.now < 2 ^ 64 }
        ensures readers { self.new ≡ with_reader self.old player (get_or self.new player at_start) }
        ensures place { (get_or self.new player at_start).place ≡ (get_or self.old player at_start).place + result.used }
        ensures within { result.used ≤ length bytes.now }
        ensures rest { given_of (get_or self.old player at_start) bytes.now ≡
            given_on result.what (get_or self.new player at_start) (given_of (get_or self.new player at_start) (drop result.used bytes.now)) }
        ensures so { IsFedSo result.what result.used (get_or self.new player at_start) }
        ensures count { length self.new ≡ READERS }
    {
        self.readers[usize::from(player)].feed(bytes)
    }
}
