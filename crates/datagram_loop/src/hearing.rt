//! Datagrams that come are heard or dropped.

ghost use Rattle.std.specs.Prelude.{◌≡◌, map, is_none};
ghost use Rattle.letters.specs.Reading.{letter_in};
ghost use Rattle.post_rules.specs.Hearing as H;
ghost use Rattle.datagram_loop.specs.States.{hears, hears_if, heard_by, dropped_by, offered};

use crate::looping::PostLoop;
use definitions::{Place, PlayerId, TurnFrame};
use letters::{Letter, read_letter};
use peer_core::Peer;
use post_rules::{Cause, Drops, Partner};

/// Whether the letter is good: it has the session's id, and the pass wanted of its player, who is
/// one of these partners.
fn is_good(partners: &[Partner], id: &[u8; 32], letter: &Letter) -> bool
    ensures { result ≡ H.is_good id.now partners.now letter.now }
{
    for partner in partners {
        if partner.link.player == letter.player {
            return letter.id == *id && letter.pass == partner.link.wants;
        }
    }
    false
}

/// Whether the player is none of these partners.
fn is_stranger(partners: &[Partner], player: PlayerId) -> bool
    ensures { result ≡ is_none (H.partner_of partners.now player) }
{
    for partner in partners {
        if partner.link.player == player {
            return false;
        }
    }
    true
}

/// Why the letter is dropped, which is not good: its session is judged first, then its player, and
/// then its pass.
fn cause_of(partners: &[Partner], id: &[u8; 32], letter: &Letter) -> Cause
    ensures { result ≡ H.cause_of id.now partners.now letter.now }
{
    if letter.id != *id {
        Cause::Session
    } else if is_stranger(partners, letter.player) {
        Cause::Player
    } else {
        Cause::Pass
    }
}

/// One more datagram was dropped for this cause.
fn count(drops: &mut Drops, cause: Cause)
    ensures { drops.new ≡ H.dropped_for cause drops.old }
{
    match cause {
        Cause::Spelling => drops.spelling = drops.spelling.saturating_add(1),
        Cause::Session => drops.session = drops.session.saturating_add(1),
        Cause::Player => drops.player = drops.player.saturating_add(1),
        Cause::Pass => drops.pass = drops.pass.saturating_add(1),
    }
}

/// The player told the place that it wants next: the greatest one counts.
fn tell(partner: &mut Partner, player: PlayerId, place: Place)
    ensures { partner.new ≡ H.tells player place partner.old }
{
    if partner.link.player == player {
        partner.told = partner.told.max(place);
    }
}

/// The player told the place that it wants next.
fn tell_all(partners: &mut Vec<Partner>, player: PlayerId, place: Place)
    ensures { partners.new.items ≡ H.told_by player place partners.old.items }
{
    for partner in partners.iter_mut() {
        tell(partner, player, place);
    }
}

/// The frame, if there is one, is offered to the peer.
fn offer(peer: &mut Peer, player: PlayerId, frame: &Option<TurnFrame>)
    ensures { peer.new ≡ offered player frame.now peer.old }
{
    if let Some(frame) = frame {
        peer.got(player, frame);
    }
}

impl PostLoop {
    /// Whether the letter is good.
    fn is_good(&self, letter: &Letter) -> bool
        ensures { result ≡ H.is_good self.now.peer.game.id self.now.partners letter.now }
    {
        is_good(self.partners.as_slice(), self.peer.session().id(), letter)
    }

    /// Why the letter is dropped, which is not good.
    fn cause_of(&self, letter: &Letter) -> Cause
        ensures { result ≡ H.cause_of self.now.peer.game.id self.now.partners letter.now }
    {
        cause_of(self.partners.as_slice(), self.peer.session().id(), letter)
    }

    /// A datagram is dropped for this cause: that is counted, and nothing else changes.
    fn drop_for(&mut self, cause: Cause)
        ensures { self.new ≡ dropped_by cause self.old }
    {
        count(&mut self.drops, cause);
    }

    /// A good letter is heard: the place that its player wants is noted, and its frame, if it
    /// brings one, is offered to the peer.
    fn hear(&mut self, letter: &Letter)
        ensures { self.new ≡ heard_by letter.now self.old }
    {
        tell_all(&mut self.partners, letter.player, letter.next);
        offer(&mut self.peer, letter.player, &letter.frame);
    }

    /// A letter came: one that is not good is dropped.
    fn hear_good(&mut self, letter: &Letter)
        ensures { self.new ≡ hears_if (H.is_good self.old.peer.game.id self.old.partners letter.now) letter.now self.old }
    {
        if self.is_good(letter) {
            self.hear(letter);
        } else {
            let cause = self.cause_of(letter);
            self.drop_for(cause);
        }
    }

    /// A datagram came: one that spells no letter is dropped.
    pub(crate) fn take(&mut self, bytes: &[u8])
        ensures { self.new ≡ hears (letter_in bytes.now) self.old }
    {
        match read_letter(bytes) {
            Some(letter) => self.hear_good(&letter),
            None => self.drop_for(Cause::Spelling),
        }
    }

    /// How many of the datagrams that came were dropped for each cause, from the making of the loop
    /// through all plays. Each is counted once, by the first cause that holds of it, and one that is
    /// heard never is. A count that reaches `u64::MAX` stays there.
    pub fn drops(&self) -> Drops
        ensures { result ≡ self.now.drops }
    {
        self.drops
    }
}
