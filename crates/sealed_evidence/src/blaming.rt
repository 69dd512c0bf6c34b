//! What an accused player shows.

ghost use Rattle.std.specs.Prelude.{◌≡◌, IsTrue};
ghost use Rattle.definitions.specs.Exhibits.{Shows};
ghost use Rattle.seal_keys.specs.Keys.{root_of};
ghost use Rattle.seal_blame.specs.Made.{AreMade};
ghost use Rattle.seal_blame.specs.Blames.{BlamesSo, IsFirstNew, are_valid};

use crate::sealed::SealedExhibit;
use definitions::TurnFrame;
use grid_world::Session;
use seal_blame::{Blame, blame_frames};
use seal_keys::SealKeys;

/// What an accused player shows from its own keys and the frames that it made: which frame of the
/// exhibit is the first that it didn't make, and what that one shows. There always is one. So the
/// exhibit holds a secret that no seal of the frames made discloses, or gives two byte strings with
/// one digest.
///
/// `made` are the frames that the player made in fair play, by place: those of its honest log, in
/// their order, are such (`seal_blame::laws::honest_logs_are_made_so`). The session is that of the
/// keys. The exhibit names their player, its frames show what it says, and each has a seal that is
/// valid under the root of the keys: this [`judge_sealed`](crate::judge_sealed) says where that is
/// the player's root (`laws::judged_seals_are_valid`). The call takes no memory.
pub fn blame(
    session: &Session,
    keys: &SealKeys,
    made: &[TurnFrame],
    sealed: &SealedExhibit,
) -> Blame
    requires game { session.now ≡ keys.now.game }
    requires made { AreMade keys.now.game keys.now.player made.now }
    requires player { sealed.now.exhibit.player ≡ keys.now.player }
    requires shows { Shows session.now sealed.now.exhibit.player sealed.now.exhibit.turn sealed.now.exhibit.kind sealed.now.exhibit.frames }
    requires sealed { IsTrue (are_valid keys.now.game (root_of keys.now.game keys.now.seed) sealed.now.exhibit.frames sealed.now.seals) }
    ensures first { IsFirstNew made.now sealed.now.exhibit.frames result.frame }
    ensures blames { BlamesSo keys.now made.now sealed.now.exhibit.frames sealed.now.seals result.frame result.how }
{
    session.facts();
    blame_frames(
        session,
        keys,
        made,
        sealed.exhibit.frames.as_slice(),
        sealed.seals.as_slice(),
    )
}
