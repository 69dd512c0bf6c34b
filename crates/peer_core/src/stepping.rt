//! What a peer does at a step from outside: it takes what comes, and makes what it may make then.

ghost use Rattle.std.specs.Prelude.{◌≡◌};
ghost use Rattle.definitions.specs.Answers.{got_answer};
ghost use Rattle.definitions.specs.Needs as N;
ghost use Rattle.definitions.specs.Steps as D;
ghost use Rattle.peer_core.specs.Choosing.{fault_of};

use crate::answers::is_logged;
use crate::peer::Peer;
use definitions::{GotAnswer, Move, Nonce, OwnFault, PlayerId, TurnFrame};

impl Peer {
    /// Chooses the move of the next turn, as `choose` does, and then makes every frame that is allowed
    /// by now. A choice that is refused changes nothing.
    pub fn choose_and_advance(&mut self, mv: Move, nonce: Nonce) -> Result<(), OwnFault>
        ensures fault { fault_of result ≡ N.choice_fault self.old.game self.old.me self.old.entries mv }
        ensures log { self.new ≡ record self.old { entries = D.after_choice self.old.game self.old.me self.old.entries mv nonce } }
    {
        match self.choose(mv, nonce) {
            Err(fault) => Err(fault),
            Ok(()) => {
                self.advance();
                Ok(())
            }
        }
    }

    /// Takes a frame that came from a player, as `got` does, and then makes every frame that is allowed
    /// by now, where the frame is logged. A frame that is refused changes nothing.
    pub fn got_and_advance(&mut self, from: PlayerId, frame: &TurnFrame) -> GotAnswer
        ensures answer { result ≡ got_answer self.old.game self.old.me self.old.entries from frame.now }
        ensures log { self.new ≡ record self.old { entries = D.after_got self.old.game self.old.me self.old.entries from frame.now } }
    {
        let answer = self.got(from, frame);
        if is_logged(&answer) {
            self.advance();
        }
        answer
    }
}
