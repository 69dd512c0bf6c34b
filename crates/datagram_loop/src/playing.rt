//! Polls, and the whole of a play.

ghost use Rattle.std.specs.Prelude.{◌≡◌};
ghost use Rattle.own_moves.specs.Choices.{chooser};
ghost use Rattle.datagram_post.specs.Items.{did_by, poll_item};
ghost use Rattle.std.specs.Prelude.{◌++◌, ◌∷◌, []};
ghost use Rattle.datagram_loop.specs.States.{IsReady, polled_on};
ghost use Rattle.datagram_loop.specs.Playing.{Ends, ended_of};

use crate::looping::PostLoop;
use crate::settling::Settled;
use datagram_post::Post;
use loop_ends::Ended;
use peer_rules::Phase;
use pilots::Pilot;
use rand_core::Rng;
use socket_station::Did;

/// How a run ended whose last settling ended so.
fn ended_of(settled: &Settled) -> Ended
    ensures { result ≡ ended_of settled.now }
{
    match *settled {
        Settled::Idle => Ended::GaveUp,
        Settled::Done => Ended::Done,
        Settled::Caught(finding) => Ended::Caught(finding),
        Settled::KeepFault => Ended::KeepFault,
        Settled::OwnMove(turn, fault) => Ended::OwnMove(turn, fault),
    }
}

impl PostLoop {
    /// Polls once, and says whether that was done.
    fn poll<D: Post>(&mut self, post: &mut D) -> bool
        requires running { self.old.phase ≡ Phase.Running }
        ensures told { D.history post.new ≡ D.history post.old ++ poll_item (did_by result) ∷ [] }
        ensures after { self.new ≡ polled_on result self.old }
    {
        match post.poll() {
            Did::Done => true,
            Did::Failed => {
                self.phase = Phase::PollFault;
                false
            }
        }
    }

    /// Plays with at most so many polls, and says how it ended. All own moves are the pilot's, and
    /// their nonces are those that `chance` gives, one after the other. Between any two polls, and
    /// before the first and after the last, it receives, keeps and syncs, and sends, once each in
    /// this order. It may be called again where it ended with `GaveUp`, `Done`, `Caught` or
    /// `OwnMove`.
    pub fn play<D: Post, P: Pilot, R: Rng>(
        &mut self,
        post: &mut D,
        pilot: &mut P,
        chance: &mut R,
        polls: u64,
    ) -> Ended
        requires ready { IsReady self.old }
        ensures { Ends (chooser (P.plan pilot.old) (R.stream chance.old)) (chooser (P.plan pilot.new) (R.stream chance.new)) polls result (D.history post.old) (D.history post.new) self.old self.new }
    {
        let mut left = polls;
        while left > 0 {
            left -= 1;
            let settled = self.settle(post, pilot, chance);
            if !settled.is_idle() {
                return ended_of(&settled);
            }
            if !self.poll(post) {
                return Ended::PollFault;
            }
        }
        let settled = self.settle(post, pilot, chance);
        ended_of(&settled)
    }
}
