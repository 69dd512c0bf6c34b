//! What is done between two polls.

ghost use Rattle.std.specs.Prelude.{◌≡◌};
ghost use Rattle.own_moves.specs.Choices.{chooser};
ghost use Rattle.datagram_loop.specs.States.{IsReady};
ghost use Rattle.datagram_loop.specs.Settling.{Settles, Serves, IsServing, is_idle, own_move};

use crate::looping::PostLoop;
use datagram_post::Post;
use definitions::{Finding, MoveFault, Turn};
use own_moves::Moves;
use pilots::Pilot;
use rand_core::Rng;

/// How a settling ended.
#[derive(Clone, Copy, Debug, PartialEq, Eq)]
pub enum Settled {
    /// A poll is licensed.
    Idle,
    /// All own turns are made, nobody is waited for, and no player wants an own frame.
    Done,
    /// The log has a finding: this is its first.
    Caught(Finding),
    /// `keep` or `sync` failed.
    KeepFault,
    /// The pilot's move of this turn, counted from 0, is not legal: this is its first fault.
    OwnMove(Turn, MoveFault),
}

impl Settled {
    /// Whether a poll is licensed.
    pub(crate) fn is_idle(&self) -> bool
        ensures { result ≡ is_idle self.now }
    {
        matches!(self, Settled::Idle)
    }
}

/// How a settling ends in which an own move was refused.
fn own_move(made: &Moves) -> Option<Settled>
    ensures { result ≡ own_move made.now }
{
    match *made {
        Moves::Legal => None,
        Moves::OwnMove(turn, fault) => Some(Settled::OwnMove(turn, fault)),
    }
}

impl PostLoop {
    /// Sends the batch, and says whether anybody is waited for.
    fn serve<D: Post>(&self, post: &mut D) -> Settled
        requires { IsServing self.now }
        ensures { Serves result (D.history post.old) (D.history post.new) self.now }
    {
        self.facts();
        self.send_all(post);
        if self.is_waited_for() {
            Settled::Idle
        } else {
            Settled::Done
        }
    }

    /// Receives, keeps and syncs, and sends: once, in this order.
    pub(crate) fn settle<D: Post, P: Pilot, R: Rng>(
        &mut self,
        post: &mut D,
        pilot: &mut P,
        chance: &mut R,
    ) -> Settled
        requires ready { IsReady self.old }
        ensures { Settles (chooser (P.plan pilot.old) (R.stream chance.old)) (chooser (P.plan pilot.new) (R.stream chance.new)) result (D.history post.old) (D.history post.new) self.old self.new }
    {
        let made = self.receive_all(post, pilot, chance);
        if !self.keep_new(post) {
            return Settled::KeepFault;
        }
        if let Some(settled) = own_move(&made) {
            return settled;
        }
        if let Some(finding) = self.finding() {
            return Settled::Caught(finding);
        }
        self.serve(post)
    }
}
