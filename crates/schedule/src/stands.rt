//! How a match stands.

ghost use Rattle.std.specs.Prelude.{◌≡◌, ◌<◌, ◌==◌, IfSome, find};
ghost use Rattle.std.specs.List.{list_any};
ghost use Rattle.definitions.specs.Lists.{first_of};
ghost use Rattle.definitions.specs.World.{players_of};
ghost use Rattle.definitions.specs.Steps as D;
ghost use Rattle.schedule.specs.Stands as N;

use crate::table::Table;
use definitions::{Need, Place, PlayerId};
use peer_core::Peer;

/// How a match stands: the first of these that holds, and of those the one with the least numbers.
#[derive(Clone, Copy, Debug, PartialEq, Eq)]
pub enum Stand {
    /// The log of this honest player has a finding.
    Caught(PlayerId),
    /// This honest player may choose.
    Moving(PlayerId),
    /// The first player lacks the frame of this place, counted from 0, which is next in the stream of the second one, who made
    /// it; both are honest.
    Behind(PlayerId, PlayerId, Place),
    /// An honest player waits for this hostile one.
    Held(PlayerId),
    /// All honest players made all their frames, and wait for no one.
    Finished,
}

/// A frame that was made: who lacks it, whose it is, and its place.
#[derive(Clone, Copy, Debug, PartialEq, Eq)]
pub(crate) struct Gap {
    pub who: PlayerId,
    pub whose: PlayerId,
    pub place: Place,
}

/// Whether a frame of the player is needed.
fn is_needed(needs: &[Need], player: PlayerId) -> bool
    ensures { result ≡ list_any (λ n. n.player == player) needs.now }
{
    needs.iter().any(|need| need.player == player)
}

impl Table {
    /// How the match stands.
    pub fn stand(&self) -> Stand
        ensures exact { result ≡ N.stand self.now.game self.now.logs }
        ensures players { N.NamesPlayers self.now.game result }
    {
        if let Some(player) = self.first_caught() {
            return Stand::Caught(player);
        }
        if let Some(player) = self.first_moving() {
            return Stand::Moving(player);
        }
        if let Some(gap) = self.first_gap() {
            return Stand::Behind(gap.who, gap.whose, gap.place);
        }
        match self.first_holding() {
            Some(player) => Stand::Held(player),
            None => Stand::Finished,
        }
    }

    /// The first honest player whose log has a finding.
    fn first_caught(&self) -> Option<PlayerId>
        ensures first { result ≡ find (N.is_caught self.now.game self.now.logs) (N.players self.now.game) }
        ensures within { IfSome result (λ p. p < players_of self.now.game) }
    {
        for player in 0..self.session().players() {
            if self.is_caught(player) {
                return Some(player);
            }
        }
        None
    }

    fn is_caught(&self, player: PlayerId) -> bool
        requires { player < players_of self.now.game }
        ensures { result ≡ N.is_caught self.now.game self.now.logs player }
    {
        match self.peer(player) {
            None => false,
            Some(peer) => peer.finding().is_some(),
        }
    }

    /// The first honest player who may choose.
    fn first_moving(&self) -> Option<PlayerId>
        ensures first { result ≡ find (N.is_moving self.now.game self.now.logs) (N.players self.now.game) }
        ensures within { IfSome result (λ p. p < players_of self.now.game) }
    {
        for player in 0..self.session().players() {
            if self.is_moving(player) {
                return Some(player);
            }
        }
        None
    }

    fn is_moving(&self, player: PlayerId) -> bool
        requires { player < players_of self.now.game }
        ensures { result ≡ N.is_moving self.now.game self.now.logs player }
    {
        match self.peer(player) {
            None => false,
            Some(peer) => peer.may_choose(),
        }
    }

    /// The first frame that an honest player lacks and another one made.
    fn first_gap(&self) -> Option<Gap>
        ensures first { result ≡ first_of (N.gap_of self.now.game self.now.logs) (N.players self.now.game) }
        ensures within { IfSome result (λ g. (g.who < players_of self.now.game) × (g.whose < players_of self.now.game)) }
    {
        for player in 0..self.session().players() {
            if let Some(gap) = self.gap_of(player) {
                return Some(gap);
            }
        }
        None
    }

    /// The first such frame that this player lacks.
    fn gap_of(&self, player: PlayerId) -> Option<Gap>
        requires { player < players_of self.now.game }
        ensures exact { result ≡ N.gap_of self.now.game self.now.logs player }
        ensures within { IfSome result (λ g. (g.who < players_of self.now.game) × (g.whose < players_of self.now.game)) }
    {
        let peer = self.peer(player)?;
        let whose = self.first_ahead(peer)?;
        Some(Gap {
            who: player,
            whose,
            place: peer.player(whose).next,
        })
    }

    /// The first player who made the frame that is next in its stream for the peer.
    fn first_ahead(&self, peer: &Peer) -> Option<PlayerId>
        requires { peer.now.game ≡ self.now.game }
        ensures first { result ≡ find (N.is_ahead_of self.now.game self.now.logs peer.now.me peer.now.entries) (N.players self.now.game) }
        ensures within { IfSome result (λ q. q < players_of self.now.game) }
    {
        for player in 0..self.session().players() {
            if self.has_made(player, peer.player(player).next) {
                return Some(player);
            }
        }
        None
    }

    fn has_made(&self, player: PlayerId, place: Place) -> bool
        requires { player < players_of self.now.game }
        ensures { result ≡ N.has_made (D.log_of self.now.logs player) place }
    {
        match self.peer(player) {
            None => false,
            Some(peer) => place < peer.made_count(),
        }
    }

    /// The first hostile player for whom an honest one waits.
    fn first_holding(&self) -> Option<PlayerId>
        ensures first { result ≡ find (N.is_holding self.now.game self.now.logs) (N.players self.now.game) }
        ensures within { IfSome result (λ p. p < players_of self.now.game) }
    {
        for player in 0..self.session().players() {
            if self.is_holding(player) {
                return Some(player);
            }
        }
        None
    }

    fn is_holding(&self, player: PlayerId) -> bool
        requires { player < players_of self.now.game }
        ensures { result ≡ N.is_holding self.now.game self.now.logs player }
    {
        !self.is_honest(player) && self.is_waited_for(player)
    }

    fn is_waited_for(&self, player: PlayerId) -> bool
        requires { player < players_of self.now.game }
        ensures { result ≡ N.is_waited_for self.now.game self.now.logs player }
    {
        for who in 0..self.session().players() {
            if self.waits_for(who, player) {
                return true;
            }
        }
        false
    }

    fn waits_for(&self, who: PlayerId, player: PlayerId) -> bool
        requires { who < players_of self.now.game }
        ensures { result ≡ N.waits_for self.now.game who (D.log_of self.now.logs who) player }
    {
        match self.peer(who) {
            None => false,
            Some(peer) => is_needed(peer.needs().as_slice(), player),
        }
    }
}
