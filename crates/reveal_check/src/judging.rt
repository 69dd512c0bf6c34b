//! The judgement of a reveal.

ghost use Rattle.std.specs.Prelude.{◌≡◌, ◌<◌, ◌↔◌, IsTrue};
ghost use Rattle.definitions.specs.World.{players_of, is_open};
ghost use Rattle.definitions.specs.Openings.{commitment};
ghost use Rattle.reveal_check.specs.Judgements.{judgement};

use commitment::opens;
use definitions::{Digest, MoveFault, Opening, Track};
use grid_world::Session;
use move_rules::Walker;

/// What a reveal is worth.
#[derive(Clone, Copy, Debug, PartialEq, Eq)]
pub enum Verdict {
    /// It opens the commitment, and its move is legal: the track after the move.
    Good(Track),
    /// It is not what the digest commits to.
    BadOpening,
    /// It opens the commitment, and its move has this fault, the first in their order.
    Illegal(MoveFault),
}

/// Judges an opening by the digest that its player committed to, and its move by the player's track before the turn.
///
/// The digest is compared first, so the move of a bad opening isn't judged. The call takes no memory, and time by the
/// square of the player's speed.
pub fn check(
    walker: &mut Walker,
    session: &Session,
    track: &Track,
    digest: &Digest,
    opening: &Opening,
) -> Verdict
    requires player { opening.now.player < players_of session.now }
    requires track { IsTrue (is_open session.now.grid track.now.at) }
    ensures verdict { result ≡ judgement session.now track.now digest.now opening.now }
    ensures bad_opening { (result ≡ Verdict.BadOpening) ↔ (digest.now ≡ commitment session.now.id opening.now → ⊥) }
{
    if !opens(session.id(), opening, digest) {
        return Verdict::BadOpening;
    }
    match walker.legal(session, opening.player, track, &opening.mv) {
        Ok(next) => Verdict::Good(next),
        Err(fault) => Verdict::Illegal(fault),
    }
}
