//! A player's frames in its stream: their places, and which frame stands at a place.

ghost use Rattle.std.specs.Prelude.{◌≡◌, ◌<◌, ◌≤◌, ◌*◌};
ghost use Rattle.definitions.specs.Places as P;
ghost use Rattle.definitions.specs.Answers as A;
ghost use Rattle.grid_world.specs.Places as S;

use crate::session::Session;
use definitions::limits::WINDOW;
use definitions::{FramePlace, Place, PlayerId, Slot, Turn, TurnFrame, What};

/// The slot of a turn's commitment.
pub(crate) fn commitment_of(turn: Turn) -> Option<Slot>
    ensures { result ≡ Some (record { what = What.Commit; turn = turn }) }
{
    Some(Slot {
        what: What::Commit,
        turn,
    })
}

/// The slot of a turn's reveal.
pub(crate) fn reveal_of(turn: Turn) -> Option<Slot>
    ensures { result ≡ Some (record { what = What.Reveal; turn = turn }) }
{
    Some(Slot {
        what: What::Reveal,
        turn,
    })
}

impl Session {
    /// The place of the turn's commitment.
    pub fn commit_place(&self, turn: Turn) -> Place
        requires { turn < self.now.turns }
        ensures place { result ≡ P.commit_place self.now turn }
        ensures within { result < 2 * self.now.turns }
    {
        self.facts();
        turn + (turn + 1).saturating_sub(self.ahead())
    }

    /// The place of the turn's reveal.
    pub fn reveal_place(&self, turn: Turn) -> Place
        requires { turn < self.now.turns }
        ensures place { result ≡ P.reveal_place self.now turn }
        ensures within { result < 2 * self.now.turns }
    {
        self.facts();
        turn + (turn + self.ahead()).min(self.turns())
    }

    /// The place of a frame, counted from 0. The frames of turns that aren't played have places too, none of which is below
    /// twice the number of turns: the commitment's is twice the turn, and the reveal's the next.
    pub fn place_of(&self, frame: &TurnFrame) -> FramePlace
        ensures { result ≡ A.place_of self.now frame.now }
    {
        match *frame {
            TurnFrame::Commit { turn, .. } => {
                if turn < self.turns() {
                    FramePlace::from(self.commit_place(turn))
                } else {
                    2 * FramePlace::from(turn)
                }
            }
            TurnFrame::Reveal { turn, .. } => {
                if turn < self.turns() {
                    FramePlace::from(self.reveal_place(turn))
                } else {
                    2 * FramePlace::from(turn) + 1
                }
            }
        }
    }

    /// Whether the frame's place is past the window of the places from the next one on, or past the last turn.
    pub fn is_beyond(&self, next: Place, frame: &TurnFrame) -> bool
        ensures { result ≡ A.is_beyond self.now next frame.now }
    {
        let place = self.place_of(frame);
        place > FramePlace::from(next) + FramePlace::from(WINDOW)
            || place >= 2 * FramePlace::from(self.turns())
    }

    /// Whether the frame is one of the player's own, and the player another one of the session than `me`.
    pub fn is_of_another(&self, me: PlayerId, player: PlayerId, frame: &TurnFrame) -> bool
        ensures { result ≡ A.is_of_another self.now me player frame.now }
    {
        player < self.players() && player != me && frame.player() == player
    }

    /// Which frame stands at the place. None comes exactly where the place is past the last turn's reveal.
    ///
    /// A stream begins with as many commitments as players commit ahead, and ends with as many reveals. Between them a reveal
    /// and a commitment take turns.
    pub fn slot_at(&self, place: Place) -> Option<Slot>
        ensures { result ≡ P.slot_at self.now place }
    {
        self.facts();
        let turns = self.turns();
        let ahead = self.ahead().min(turns);
        if place < ahead {
            commitment_of(place)
        } else if place >= 2 * turns {
            None
        } else if place >= 2 * turns - ahead {
            reveal_of(place - turns)
        } else if (place - ahead) % 2 == 0 {
            reveal_of((place - ahead) / 2)
        } else {
            commitment_of((place - ahead) / 2 + ahead)
        }
    }

    /// How many turns are revealed by the frames below the place.
    pub fn reveals_below(&self, place: Place) -> u32
        ensures { result ≡ S.reveals_below self.now place }
    {
        self.facts();
        match self.slot_at(place) {
            None => self.turns(),
            Some(slot) => match slot.what {
                What::Commit => place - slot.turn,
                What::Reveal => slot.turn,
            },
        }
    }
}
