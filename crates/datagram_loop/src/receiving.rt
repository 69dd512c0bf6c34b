//! Datagrams are received.

ghost use Rattle.std.specs.Prelude.{◌≡◌, true};
ghost use Rattle.own_moves.specs.Choices.{chooser};
ghost use Rattle.own_moves.specs.Making as M;
ghost use Rattle.datagram_loop.specs.States.{IsReady, hears};
ghost use Rattle.datagram_loop.specs.Receiving.{MakesMoves, ReceivesOne, Steps, Receives, goes_on};

use crate::looping::PostLoop;
use datagram_post::{Post, Received};
use own_moves::{Moves, make_all};
use pilots::Pilot;
use post_rules::MOST_DATAGRAMS;
use rand_core::Rng;

/// Whether no own move was refused.
fn are_legal(made: &Moves) -> bool
    ensures { result ≡ M.are_legal made.now }
{
    matches!(made, Moves::Legal)
}

impl PostLoop {
    /// Makes all own moves and frames that may be made.
    fn make<P: Pilot, R: Rng>(&mut self, pilot: &mut P, chance: &mut R) -> Moves
        ensures { MakesMoves (chooser (P.plan pilot.old) (R.stream chance.old)) (chooser (P.plan pilot.new) (R.stream chance.new)) result self.old self.new }
    {
        make_all(&mut self.peer, pilot, chance)
    }

    /// Receives once, and says whether a datagram came, which is heard.
    fn receive<D: Post>(&mut self, post: &mut D) -> bool
        ensures { ReceivesOne result (D.history post.old) (D.history post.new) self.old self.new }
    {
        let mut buffer = [0; 128];
        match post.receive(&mut buffer) {
            Received::Took(count) => {
                self.take(&buffer[..count]);
                true
            }
            Received::NotYet => false,
            Received::Failed => false,
        }
    }

    /// Receives once, and then makes all own moves and frames that may be made. It says `None`
    /// where no datagram came.
    fn step<D: Post, P: Pilot, R: Rng>(
        &mut self,
        post: &mut D,
        pilot: &mut P,
        chance: &mut R,
    ) -> Option<Moves>
        ensures { Steps (chooser (P.plan pilot.old) (R.stream chance.old)) (chooser (P.plan pilot.new) (R.stream chance.new)) result (D.history post.old) (D.history post.new) self.old self.new }
    {
        if !self.receive(post) {
            return None;
        }
        Some(self.make(pilot, chance))
    }

    /// Whether receiving goes on: no own move was refused, and the log has no finding.
    fn goes_on(&self, made: &Moves) -> bool
        ensures { result ≡ goes_on made.now self.now }
    {
        are_legal(made) && self.peer.finding().is_none()
    }

    /// Receives all datagrams that are there, at most `MOST_DATAGRAMS`, and hears each as it
    /// comes. Before the first and after each, own moves and frames are made. It ends early at an
    /// own move that isn't legal, and at a finding.
    pub(crate) fn receive_all<D: Post, P: Pilot, R: Rng>(
        &mut self,
        post: &mut D,
        pilot: &mut P,
        chance: &mut R,
    ) -> Moves
        requires ready { IsReady self.old }
        ensures { Receives (chooser (P.plan pilot.old) (R.stream chance.old)) (chooser (P.plan pilot.new) (R.stream chance.new)) result (D.history post.old) (D.history post.new) self.old self.new }
    {
        let mut made = self.make(pilot, chance);
        let mut taken = 0;
        while taken < MOST_DATAGRAMS && self.goes_on(&made) {
            let next = self.step(post, pilot, chance);
            let Some(next) = next else {
                return made;
            };
            made = next;
            taken += 1;
        }
        made
    }
}
