//! A loop: what it is made of, and its peer.

ghost use Rattle.std.specs.Prelude.{◌≡◌, [], IfOk, map, not, is_some};
ghost use Rattle.definitions.specs.Findings.{is_clean};
ghost use Rattle.definition_laws.specs.First.{finding_of_log};
ghost use Rattle.definitions.specs.World.{players_of};
ghost use Rattle.rosters.specs.Rosters.{LinksOthers};
ghost use Rattle.peer_core.specs.Standing.{IsStanding};
ghost use Rattle.post_rules.specs.Views.{new_partner, new_partners};
ghost use Rattle.datagram_loop.specs.Beginning.{new_loop};

use definitions::Finding;
use peer_core::Peer;
use peer_rules::Phase;
use post_rules::{Drops, Partner};
use rosters::{Link, Roster};
use session_log::LogWriter;
use std::alloc::{AllocError, Global};
use std::marker::Model;

/// The loop of a peer over datagrams and a log.
#[derive(Drop)]
pub struct PostLoop {
    pub(crate) peer: Peer,
    pub(crate) roster: Roster,
    pub(crate) partners: Vec<Partner>,
    // how many entries are kept, and how many of these the last sync found
    pub(crate) kept: usize,
    pub(crate) synced: usize,
    pub(crate) phase: Phase,
    pub(crate) writer: LogWriter,
    // how many datagrams were dropped, by cause
    pub(crate) drops: Drops,
}

impl Model for PostLoop {
    ghost use Rattle.datagram_loop.specs.States.{LoopState, IsFit};

    ghost Value = { LoopState };

    ghost view = { λ l. record { peer = l.peer; roster = l.roster; partners = l.partners.items; kept = l.kept; synced = l.synced; phase = l.phase; drops = l.drops } };

    ghost invariant = { λ l. IsFit (record { peer = l.peer; roster = l.roster; partners = l.partners.items; kept = l.kept; synced = l.synced; phase = l.phase; drops = l.drops }) l.writer };
}

/// Nothing was dropped.
const NONE: Drops = Drops {
    spelling: 0,
    session: 0,
    player: 0,
    pass: 0,
};

/// The other players, of whom nothing is known.
fn partners_of(alloc: Global, links: &[Link]) -> Result<Vec<Partner>, AllocError>
    ensures { IfOk result (λ ps. ps.items ≡ new_partners links.now) }
{
    let mut partners = Vec::new(alloc);
    for link in links {
        partners.push(Partner {
            link: *link,
            told: 0,
        })?;
    }
    Ok(partners)
}

impl PostLoop {
    /// A loop of the peer, which has no entries, with a link to each other player. All memory of
    /// the loop is taken here. It is an error where memory is wanting.
    pub fn new(alloc: Global, peer: Peer, roster: Roster) -> Result<PostLoop, AllocError>
        requires links { LinksOthers peer.me (players_of peer.game) roster }
        requires first { peer.entries ≡ [] }
        ensures { IfOk result (λ l. l ≡ new_loop peer roster) }
    {
        let partners = partners_of(alloc, roster.links())?;
        let writer = LogWriter::new(peer.session(), peer.me());
        Ok(PostLoop {
            peer,
            roster,
            partners,
            kept: 0,
            synced: 0,
            phase: Phase::Fresh,
            writer,
            drops: NONE,
        })
    }

    /// What holds of the peer: its session's numbers are within their limits, and its log is
    /// honest. The call does nothing.
    pub(crate) fn facts(&self)
        ensures { IsStanding self.now.peer }
    {
        self.peer.facts();
    }

    /// The first finding of the log, if it has one.
    pub(crate) fn finding(&self) -> Option<Finding>
        ensures first { result ≡ finding_of_log self.now.peer.game self.now.peer.entries }
        ensures clean { is_some result ≡ not (is_clean self.now.peer.game self.now.peer.entries) }
    {
        self.peer.finding()
    }

    /// The peer.
    pub fn peer(&self) -> &Peer
        ensures { result.now ≡ self.now.peer }
    {
        &self.peer
    }
}
