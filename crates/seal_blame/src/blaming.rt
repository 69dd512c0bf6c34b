//! Which of several sealed frames its player didn't make, and what it shows.

ghost use Rattle.std.specs.Prelude.{◌≡◌, ◌<◌, ◌^◌, ℕ, Some, length, slice_get, IsTrue};
ghost use Rattle.definitions.specs.declared.frames.TurnFrame.{TurnFrame};
ghost use Rattle.definition_laws.specs.Members.{Has};
ghost use Rattle.seal_keys.specs.Keys.{root_of};
ghost use Rattle.seal_blame.specs.Made.{AreMade};
ghost use Rattle.seal_blame.specs.Blames as B;

use crate::how::{How, blame_frame};
use crate::listing::is_made;
use definitions::{PlayerId, TurnFrame};
use grid_world::Session;
use seal_keys::{Seal, SealKeys};

/// Which frame a player didn't make, and what it shows.
#[derive(Clone, Copy, Debug, PartialEq, Eq)]
pub struct Blame {
    /// The number, counted from 0, of the first frame that the player didn't make.
    pub frame: u32,
    /// What it shows.
    pub how: How,
}

/// The number of the first frame that is not among those that the player made. There is one.
fn first_new(session: &Session, player: PlayerId, made: &[TurnFrame], frames: &[TurnFrame]) -> usize
    requires made { AreMade session.now player made.now }
    requires some { ((j : ℕ) (f : TurnFrame) → slice_get frames.now j ≡ Some f → Has made.now f) → ⊥ }
    ensures { B.IsFirstNew made.now frames.now result }
{
    for i in 0..frames.len() {
        if !is_made(session, made, &frames[i]) {
            return i;
        }
    }
    unreachable!()
}

/// Which of the frames, each with its seal, is the first that the player of these keys didn't make,
/// and what it shows: two byte strings with one digest, or a secret that no seal of the frames that
/// it made discloses.
///
/// `made` are the frames that the player made in fair play, by place. There are as many seals as
/// frames, each valid under the root of the keys, and some frame wasn't made. The call takes no
/// memory.
pub fn blame_frames(
    session: &Session,
    keys: &SealKeys,
    made: &[TurnFrame],
    frames: &[TurnFrame],
    seals: &[Seal],
) -> Blame
    requires game { session.now ≡ keys.now.game }
    requires made { AreMade keys.now.game keys.now.player made.now }
    requires few { length frames.now < 2 ^ 32 }
    requires sealed { IsTrue (B.are_valid keys.now.game (root_of keys.now.game keys.now.seed) frames.now seals.now) }
    requires some { ((j : ℕ) (f : TurnFrame) → slice_get frames.now j ≡ Some f → Has made.now f) → ⊥ }
    ensures first { B.IsFirstNew made.now frames.now result.frame }
    ensures blames { B.BlamesSo keys.now made.now frames.now seals.now result.frame result.how }
{
    let number = first_new(session, keys.player(), made, frames);
    let how = blame_frame(session, keys, made, &frames[number], &seals[number]);
    Blame {
        frame: number as u32,
        how,
    }
}
