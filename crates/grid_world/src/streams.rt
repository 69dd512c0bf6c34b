//! How far a player's stream is known, and what stands at its next place.

ghost use Rattle.std.specs.Prelude.{◌≡◌, ◌==◌, ◌<◌, ◌^◌};
ghost use Rattle.definitions.specs.Places as P;
ghost use Rattle.grid_world.specs.Streams as S;

use crate::places::{commitment_of, reveal_of};
use crate::session::Session;
use definitions::{FramePlace, Place, Slot, Track};

/// How much of a player's stream is known: how many turns are committed, how many of them are
/// resolved, and the track after those.
///
/// Both numbers count turns from the first one on, so each is also the next such turn. The track
/// says where the player stands after the moves of the resolved turns, and its charge.
#[derive(Clone, Copy, Debug, PartialEq, Eq)]
pub struct Stream {
    pub commits: u32,
    pub resolved: u32,
    pub track: Track,
}

impl Stream {
    /// The next place of the stream, counted from 0: the number of frames that are known.
    pub fn next(&self) -> Place
        requires { S.next_of self.now < 2 ^ 32 }
        ensures { result ≡ S.next_of self.now }
    {
        self.commits + self.resolved
    }

    /// Whether the next place of the stream is this one.
    pub fn is_at(&self, place: Place) -> bool
        ensures { result ≡ (S.next_of self.now == place) }
    {
        FramePlace::from(self.commits) + FramePlace::from(self.resolved) == FramePlace::from(place)
    }

    /// Which frame stands at the next place: a commitment as many turns ahead as players commit,
    /// and otherwise the reveal of the first turn that isn't resolved. None comes where no turn is
    /// left for either.
    ///
    /// A stream is in order where its commitments and reveals are those of the places below the
    /// next one. Then the answer is what the session says of that place.
    pub fn slot(&self, session: &Session) -> Option<Slot>
        ensures slot { result ≡ S.slot_next session.now self.now }
        ensures place { S.IsInOrder session.now self.now → result ≡ P.slot_at session.now (S.next_of self.now) }
    {
        session.facts();
        let ahead = self.resolved.saturating_add(session.ahead());
        if self.commits < ahead.min(session.turns()) {
            commitment_of(self.commits)
        } else if self.resolved < session.turns() {
            reveal_of(self.resolved)
        } else {
            None
        }
    }
}
