//! How many own frames a player wants.

ghost use Rattle.std.specs.Prelude.{◌≡◌, ◌==◌, find};
ghost use Rattle.definitions.specs.Honest.{made_count};
ghost use Rattle.post_rules.specs.Hearing.{partner_of};
ghost use Rattle.datagram_loop.specs.States.{asked_by};

use crate::looping::PostLoop;
use definitions::{Place, PlayerId};
use post_rules::Partner;

/// The place that the player wants next, among so many own frames; 0 where none of these is its
/// partner.
fn asked_among(partners: &[Partner], player: PlayerId, made: Place) -> Place
    ensures { result ≡ asked_by made (find (λ p. p.link.player == player) partners.now) }
{
    for partner in partners {
        if partner.link.player == player {
            return partner.told.min(made);
        }
    }
    0
}

impl PostLoop {
    /// The place of the own frame that the player wants next, counted from 0: the greatest that it
    /// told, at most the number of own frames. It is 0 for a player without a link.
    pub fn asked(&self, player: PlayerId) -> Place
        ensures { result ≡ asked_by (made_count self.now.peer.entries) (partner_of self.now.partners player) }
    {
        asked_among(self.partners.as_slice(), player, self.peer.made_count())
    }
}
