//! Who the other players are, and where.

ghost use Rattle.std.specs.Prelude.{◌≡◌};

use crate::addr::Addr;
use definitions::PlayerId;
use std::marker::Model;

/// Where another player is, and the passes by which the two know each other.
#[derive(Clone, Copy, Debug, PartialEq, Eq)]
pub struct Link {
    /// The other player.
    pub player: PlayerId,
    /// Where it listens.
    pub addr: Addr,
    /// The pass that is shown to it.
    pub shows: [u8; 16],
    /// The pass that is wanted from it.
    pub wants: [u8; 16],
}

/// A player's own address, and its links to the others.
#[derive(Drop)]
pub struct Roster {
    me: Addr,
    links: Vec<Link>,
}

impl Model for Roster {
    ghost use Rattle.rosters.specs.Rosters.{Neighbours};

    ghost Value = { Neighbours };

    ghost view = { λ r. record { me = r.me; links = r.links.items } };
}

impl Roster {
    /// The roster of this own address and these links, which are kept as they are.
    pub fn new(me: Addr, links: Vec<Link>) -> Roster
        ensures { result ≡ record { me = me; links = links.items } }
    {
        Roster { me, links }
    }

    /// The own address.
    pub fn me(&self) -> Addr
        ensures { result ≡ self.now.me }
    {
        self.me
    }

    /// The links in their order.
    pub fn links(&self) -> &[Link]
        ensures { result.now ≡ self.now.links }
    {
        &self.links
    }
}
