//! Whether sealed frames show what they are to show.

ghost use Rattle.std.specs.Prelude.{◌≡◌, ◌<◌, length};
ghost use Rattle.sealed_evidence.specs.Judging as J;

use crate::sealed::SealedExhibit;
use definitions::TurnFrame;
use evidence::judge;
use grid_world::Session;
use move_rules::Walker;
use roots::Roots;
use seal_keys::{Seal, valid};

/// Whether the seal is valid for the frame under the root of the frame's player. False where the
/// player has no root. The call takes no memory.
pub fn is_sealed(session: &Session, roots: &Roots, frame: &TurnFrame, seal: &Seal) -> bool
    ensures { result ≡ J.is_sealed session.now roots.now frame.now seal.now }
{
    let player = frame.player();
    usize::from(player) < roots.players() && valid(session, roots.root(player), frame, seal)
}

/// Whether there are as many seals as frames, and each is valid for the frame at its place of the
/// list under the root of the frame's player.
fn are_sealed(session: &Session, roots: &Roots, frames: &[TurnFrame], seals: &[Seal]) -> bool
    ensures { result ≡ J.are_sealed session.now roots.now frames.now seals.now }
{
    if frames.len() != seals.len() {
        return false;
    }
    for i in 0..frames.len() {
        if !is_sealed(session, roots, &frames[i], &seals[i]) {
            return false;
        }
    }
    true
}

/// Whether the frames show, without any log, what the exhibit says of its player and turn, and each
/// carries a seal that is valid under the root of its player: there are as many seals as frames,
/// each for the frame at the same place of its list. The call takes no memory.
pub fn judge_sealed(
    session: &Session,
    walker: &mut Walker,
    roots: &Roots,
    sealed: &SealedExhibit,
) -> bool
    ensures { result ≡ J.shows_sealed session.now roots.now sealed.now }
{
    judge(session, walker, &sealed.exhibit)
        && are_sealed(
            session,
            roots,
            sealed.exhibit.frames.as_slice(),
            sealed.seals.as_slice(),
        )
}
