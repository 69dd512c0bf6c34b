//! How far one log shows a player's stream.

ghost use Rattle.std.specs.Prelude.{◌≡◌, ◌<◌, List, [], IsTrue};
ghost use Rattle.definitions.specs.declared.logs.Entry.{Entry};
ghost use Rattle.definitions.specs.World.{players_of, is_open};
ghost use Rattle.frame_index.specs.Frames.{IsIndex};
ghost use Rattle.agreed_turns.specs.Heads as H;

use definitions::{Digest, PlayerId, Turn, TurnFrame, What};
use frame_index::FrameIndex;
use grid_world::{Session, Stream};
use move_rules::{Walker, start_track};

/// A player's stream as far as a log shows it.
#[derive(Clone, Copy)]
pub(crate) struct Head {
    pub stream: Stream,
    /// The digest that the log holds of the turn that is resolved next, if that is committed.
    pub held: Option<Digest>,
}

impl Head {
    /// Of a log that shows no place of the player.
    pub(crate) fn new(session: &Session, player: PlayerId) -> Head
        requires { player < players_of session.now }
        ensures { H.IsAtEnd session.now player [] [] result }
    {
        Head {
            stream: Stream {
                commits: 0,
                resolved: 0,
                track: start_track(session, player),
            },
            held: None,
        }
    }

    /// Whether the frame is a reveal of the turn that opens the digest held, by a legal move.
    fn opened_by(
        &self,
        index: &FrameIndex,
        session: &Session,
        walker: &mut Walker,
        player: PlayerId,
        turn: Turn,
        frame: &TurnFrame,
    ) -> bool
        requires player { player < players_of session.now }
        requires track { IsTrue (is_open session.now.grid self.now.stream.track.at) }
        ensures { (logs : List (List Entry)) → IsIndex session.now logs index.now → result ≡ H.opens session.now player self.now turn frame.now }
    {
        let TurnFrame::Reveal {
            turn: other,
            mv,
            ..
        } = *frame
        else {
            return false;
        };
        let Some(held) = self.held else {
            return false;
        };
        other == turn
            && index.digest(session, frame) == held
            && walker
                .legal(session, player, &self.stream.track, &mv)
                .is_ok()
    }

    /// Whether the frame stands at the next place. It is looked at alone, whatever else is kept of its turn.
    pub(crate) fn is_met_by(
        &self,
        index: &FrameIndex,
        session: &Session,
        walker: &mut Walker,
        player: PlayerId,
        frame: &TurnFrame,
    ) -> bool
        requires player { player < players_of session.now }
        requires track { IsTrue (is_open session.now.grid self.now.stream.track.at) }
        ensures { (logs : List (List Entry)) → IsIndex session.now logs index.now → result ≡ H.fits session.now player self.now frame.now }
    {
        match self.stream.slot(session) {
            None => false,
            Some(slot) => match slot.what {
                What::Commit => frame.commit_of(slot.turn).is_some(),
                What::Reveal => self.opened_by(index, session, walker, player, slot.turn, frame),
            },
        }
    }
}
