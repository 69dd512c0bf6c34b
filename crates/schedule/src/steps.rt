//! What may happen to the peers of a match, and what comes of it.

ghost use Rattle.std.specs.Prelude.{◌↔◌, IsTrue};
ghost use Rattle.schedule.specs.Steps.{HasPlayers};

use definitions::{GotAnswer, Move, Nonce, OwnFault, Place, PlayerId, Turn, TurnFrame};
use grid_world::Session;

/// One thing that happens in a match.
#[derive(Clone, Copy, Debug, PartialEq, Eq)]
pub enum Step {
    /// An honest player chooses the move of its next turn, with the nonce of its commitment.
    Choose {
        player: PlayerId,
        mv: Move,
        nonce: Nonce,
    },
    /// The frame that an honest player made at this place, counted from 0, comes to another one.
    Deliver {
        from: PlayerId,
        to: PlayerId,
        place: Place,
    },
    /// A frame comes from a hostile player to an honest one, whatever it is.
    Hostile {
        from: PlayerId,
        to: PlayerId,
        frame: TurnFrame,
    },
    /// An honest player's peer is stopped, and goes on from the first `keep` entries of its log.
    Stop {
        player: PlayerId,
        keep: u32,
    },
}

/// Whether all players of the step are the session's. The player inside a hostile frame may be any.
pub fn has_players(step: &Step, session: &Session) -> bool
    ensures { IsTrue result ↔ HasPlayers session.now step.now }
{
    let players = session.players();
    match *step {
        Step::Choose { player, .. } => player < players,
        Step::Deliver { from, to, .. } => from < players && to < players,
        Step::Hostile { from, to, .. } => from < players && to < players,
        Step::Stop { player, .. } => player < players,
    }
}

/// What came of a step.
#[derive(Clone, Copy, Debug, PartialEq, Eq)]
pub enum StepAnswer {
    /// The move of this turn is chosen.
    Chosen(Turn),
    /// The peer refused the choice. Nothing changed.
    Refused(OwnFault),
    /// What the peer answered to the frame.
    Got(GotAnswer),
    /// A hostile player stands where an honest one is asked for. Nothing changed.
    NotHonest,
    /// The frame is to come from a player that is honest, which sends what it made alone. Nothing changed.
    NotHostile,
    /// The sender made no frame of that place. Nothing changed.
    NoFrame,
    /// The peer goes on from those entries.
    Stopped,
    /// The log has fewer entries, or a frame that the peer made would be cut off. Nothing changed.
    BadCut,
}
