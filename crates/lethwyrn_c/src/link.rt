//! The streams of bytes that come of the players.

ghost use Rattle.std.specs.Prelude.{◌≡◌, ◌+◌, ◌<◌, ◌≤◌, ◌^◌, length, get_or, set, replicate};
ghost use Rattle.wire_frames.specs.Reading.{at_start, fed_step};

use definitions::PlayerId;
use definitions::limits::MOST_PLAYERS;
use std::array::from_fn;
use std::marker::Model;
use wire_frames::{Fed, FrameReader};

/// The most bytes that a link is fed at once.
pub(crate) const MOST_AT_ONCE: usize = 0xffff_ffff;

/// From so many bytes on a link takes none.
pub(crate) const MOST_IN_ALL: u64 = 0x8000_0000_0000_0000;

/// How many links there are: one for each player that a session may have.
pub(crate) const LINKS: usize = MOST_PLAYERS as usize;

/// A link: the reader of its stream, and how many bytes of it were used.
#[derive(Drop)]
pub(crate) struct Link {
    reader: FrameReader,
    used: u64,
}

impl Model for Link {
    ghost use Rattle.std.specs.Prelude.{◌≡◌};
    ghost use Rattle.wire_frames.specs.Reading.{Reading};

    ghost Value = { Reading };

    ghost view = { λ l. l.reader };

    ghost invariant = { λ l. l.reader.place ≡ l.used };
}

impl Link {
    /// A link over which nothing came.
    fn new() -> Link
        ensures { result ≡ at_start }
    {
        Link {
            reader: FrameReader::new(),
            used: 0,
        }
    }

    /// How many bytes of the stream were used.
    fn used(&self) -> u64
        ensures { result ≡ self.now.place }
    {
        let _ = &self.reader;
        self.used
    }

    /// Reads on in these bytes, up to the end of the first frame that ends in them.
    fn feed(&mut self, bytes: &[u8]) -> Fed
        requires few { self.old.place + length bytes.now < 2 ^ 64 }
        ensures reader { self.new ≡ (fed_step self.old bytes.now).reader }
        ensures fed { result ≡ (fed_step self.old bytes.now).fed }
        ensures within { result.used ≤ length bytes.now }
    {
        let fed = self.reader.feed(bytes);
        self.used += fed.used as u64;
        fed
    }
}

/// A link for each player that there can be.
#[derive(Drop)]
pub(crate) struct Links {
    links: [Link; LINKS],
}

impl Model for Links {
    ghost use Rattle.std.specs.Prelude.{◌≡◌, List, length};
    ghost use Rattle.wire_frames.specs.Reading.{Reading};
    ghost use Rattle.lethwyrn_c.specs.declared.link.TheConstants.{LINKS};

    ghost Value = { List Reading };

    ghost view = { λ l. l.links };

    ghost invariant = { λ l. length l.links ≡ LINKS };
}

impl Links {
    /// Links over which nothing came.
    pub(crate) fn new() -> Links
        ensures { result ≡ replicate LINKS at_start }
    {
        let links = from_fn(
            |_player|
                ensures { result ≡ at_start }
            { Link::new() },
        );
        Links { links }
    }

    /// How many bytes of a player's stream were used.
    pub(crate) fn used(&self, player: PlayerId) -> u64
        requires known { player < LINKS }
        ensures { result ≡ (get_or self.now player at_start).place }
    {
        self.links[usize::from(player)].used()
    }

    /// The link of a player begins anew.
    pub(crate) fn begin(&mut self, player: PlayerId)
        requires known { player < LINKS }
        ensures { self.new ≡ set self.old player at_start }
    {
        self.links[usize::from(player)] = Link::new();
    }

    /// Reads on in the bytes that come of a player, up to the end of the first frame that ends in them.
    pub(crate) fn feed(&mut self, player: PlayerId, bytes: &[u8]) -> Fed
        requires known { player < LINKS }
        requires few { (get_or self.old player at_start).place + length bytes.now < 2 ^ 64 }
        ensures links { self.new ≡ set self.old player (fed_step (get_or self.old player at_start) bytes.now).reader }
        ensures fed { result ≡ (fed_step (get_or self.old player at_start) bytes.now).fed }
        ensures within { result.used ≤ length bytes.now }
    {
        self.links[usize::from(player)].feed(bytes)
    }
}
