//! Own frames are sent.

ghost use Rattle.std.specs.Prelude.{◌≡◌, ◌<◌, ◌≤◌, ◌+◌, length, slice_get, get_or};
ghost use Rattle.definitions.specs.Logs.{made};
ghost use Rattle.post_rules.specs.declared.limits.TheConstants.{MOST_FRAMES};
ghost use Rattle.std.specs.List.{list_any};
ghost use Rattle.definitions.specs.Honest.{made_count};
ghost use Rattle.definitions.specs.World.{players_of};
ghost use Rattle.post_rules.specs.Licence as L;
ghost use Rattle.post_rules.specs.Sending as S;
ghost use Rattle.post_rules.specs.Sending.{asked, mail_to, mails_to, batch_of};
ghost use Rattle.datagram_loop.specs.Sending.{SendsOne, SendsAll, count_for};

use crate::looping::PostLoop;
use datagram_post::Post;
use definitions::TurnFrame;
use letters::{Letter, put_letter};
use post_rules::{MOST_FRAMES, Partner};
use socket_station::Addr;

/// Whether one of the players wants an own frame that is made.
fn any_lacks(partners: &[Partner], made: u32) -> bool
    ensures { result ≡ list_any (L.lacks made) partners.now }
{
    for partner in partners {
        if partner.told < made {
            return true;
        }
    }
    false
}

impl PostLoop {
    /// What is told the player, with this own frame.
    fn letter_to(&self, partner: &Partner, frame: Option<TurnFrame>) -> Letter
        requires { partner.now.link.player < players_of self.now.peer.game }
        ensures { result ≡ S.letter_to self.now.peer.game self.now.peer.me self.now.peer.entries partner.now frame }
    {
        Letter {
            id: *self.peer.session().id(),
            player: self.peer.me(),
            pass: partner.link.shows,
            next: self.peer.player(partner.link.player).next,
            frame,
        }
    }

    /// Sends the player one datagram, with this own frame.
    fn send_one<D: Post>(&self, post: &mut D, partner: &Partner, frame: Option<TurnFrame>)
        requires { partner.now.link.player < players_of self.now.peer.game }
        ensures { SendsOne (mail_to self.now.peer.game self.now.peer.me self.now.peer.entries partner.now frame) (D.history post.old) (D.history post.new) }
    {
        let letter = self.letter_to(partner, frame);
        let mut out = [0; 128];
        let count = put_letter(&letter, &mut out);
        let ip = partner.link.addr.ip;
        let addr = Addr {
            ip,
            port: partner.link.addr.port,
        };
        post.send(addr, &out[..count]);
    }

    /// The place of the own frame from which on the player is sent frames, counted from 0.
    fn from_for(&self, partner: &Partner) -> u32
        ensures { result ≡ asked (made_count self.now.peer.entries) partner.now }
    {
        partner.told.min(self.peer.made_count())
    }

    /// How many datagrams the player is sent: one at least.
    fn count_for(&self, partner: &Partner) -> u32
        ensures { result ≡ count_for (made_count self.now.peer.entries) partner.now }
    {
        let left = self.peer.made_count() - self.from_for(partner);
        MOST_FRAMES.min(left).max(1)
    }

    /// Sends the player its next own frames, and where there is none a datagram without one.
    fn send_to<D: Post>(&self, post: &mut D, partner: &Partner)
        requires { partner.now.link.player < players_of self.now.peer.game }
        ensures { SendsAll (mails_to self.now.peer.game self.now.peer.me self.now.peer.entries partner.now) (D.history post.old) (D.history post.new) }
    {
        let from = self.from_for(partner);
        let count = self.count_for(partner);
        for k in 0..count {
            let frame = self.own_at(from, k);
            self.send_one(post, partner, frame);
        }
    }

    /// The own frame so many places past this one, if it is made.
    fn own_at(&self, from: u32, k: u32) -> Option<TurnFrame>
        requires few { k < MOST_FRAMES }
        requires within { from ≤ made_count self.now.peer.entries }
        ensures { result ≡ slice_get (made self.now.peer.entries) (from + k) }
    {
        self.facts();
        self.peer.made(from + k)
    }

    /// The partner at this place of the list, counted from 0.
    fn partner_at(&self, place: usize) -> Partner
        requires { place < length self.now.partners }
        ensures at { result ≡ get_or self.now.partners place result }
        ensures known { result.link.player < players_of self.now.peer.game }
    {
        self.partners[place]
    }

    /// How many partners there are.
    fn others(&self) -> usize
        ensures { result ≡ length self.now.partners }
    {
        self.partners.len()
    }

    /// Sends each player its next own frames, one player after the other.
    pub(crate) fn send_all<D: Post>(&self, post: &mut D)
        ensures { SendsAll (batch_of self.now.peer.game self.now.peer.me self.now.peer.entries self.now.partners) (D.history post.old) (D.history post.new) }
    {
        for place in 0..self.others() {
            let partner = self.partner_at(place);
            self.send_to(post, &partner);
        }
    }

    /// Whether a frame of another player is missed, or a player wants an own frame that is made.
    pub(crate) fn is_waited_for(&self) -> bool
        ensures { result ≡ L.is_waited_for_by self.now.peer.game self.now.peer.me self.now.peer.entries self.now.partners }
    {
        !self.peer.needs().as_slice().is_empty()
            || any_lacks(self.partners.as_slice(), self.peer.made_count())
    }
}
