//! What is shown of a player: which frames, and what they are to show.

ghost use Rattle.std.specs.Prelude.{◌≡◌};

use definitions::{Kind, PlayerId, Turn, TurnFrame};
use std::marker::Model;

/// The frames of an exhibit, in their order.
#[derive(Drop)]
pub struct FrameList {
    frames: Vec<TurnFrame>,
}

impl Model for FrameList {
    ghost use Rattle.std.specs.Prelude.{List};
    ghost use Rattle.definitions.specs.declared.frames.TurnFrame.{TurnFrame};

    ghost Value = { List TurnFrame };

    ghost view = { λ l. l.frames.items };
}

impl FrameList {
    /// The list of these frames. It takes no memory.
    pub fn new(frames: Vec<TurnFrame>) -> FrameList
        ensures { result ≡ frames.items }
    {
        FrameList { frames }
    }

    /// The frames, the first one first.
    pub fn as_slice(&self) -> &[TurnFrame]
        ensures { result.now ≡ self.now }
    {
        &self.frames
    }
}

/// Frames that are to show that a player broke the protocol in a turn. Whether they do, `judge` says.
///
/// Frames of two commitments, of a bad opening and of a collision are the two that differ. Those of an illegal move are the
/// commitment and the reveal of each turn from the first up to that of the move.
#[derive(Drop)]
pub struct Exhibit {
    /// The player that is accused.
    pub player: PlayerId,
    /// The turn, counted from 0, of which the frames are to show it.
    pub turn: Turn,
    /// What the frames are to show.
    pub kind: Kind,
    /// The frames.
    pub frames: FrameList,
}
