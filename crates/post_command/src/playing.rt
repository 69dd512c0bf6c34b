//! A run, from the first call of its loop to the last line.

ghost use Rattle.std.specs.Prelude.{◌≡◌, []};
ghost use Rattle.definitions.specs.World.{players_of};
ghost use Rattle.rosters.specs.Rosters.{LinksOthers};
ghost use Rattle.own_moves.specs.Choices.{chooser};
ghost use Rattle.datagram_loop.specs.Beginning.{IsNew};
ghost use Rattle.datagram_loop.specs.States.{setting_of};
ghost use Rattle.post_command.specs.Plays.{PlaysOut, PlaysPost};

use datagram_loop::laws::runs_are_whole;
use datagram_loop::{Begun, Ended, PostLoop};
use datagram_post::Post;
use match_ends::end;
use peer_core::Peer;
use pilots::Pilot;
use post_rules::laws::faults_are_last;
use rand_core::Rng;
use rosters::Roster;
use run_frame::Status;
use station::Sink;
use std::alloc::Global;

/// Begins the loop and plays it to its end.
fn play_out<D: Post, P: Pilot, R: Rng>(
    played: &mut PostLoop,
    post: &mut D,
    pilot: &mut P,
    chance: &mut R,
    log: &[u8],
    polls: u32,
) -> Ended
    requires new { IsNew played.old }
    requires first { D.history post.old ≡ [] }
    ensures { PlaysOut (record { setting = setting_of played.old; log = log.now; polls = polls })
        (chooser (P.plan pilot.old) (R.stream chance.old)) (chooser (P.plan pilot.new) (R.stream chance.new))
        result played.new (D.history post.new) }
{
    faults_are_last();
    runs_are_whole();
    played.peer().facts();
    match played.begin(post, log) {
        Begun::KeepFault => {
            played.peer().facts();
            Ended::KeepFault
        }
        Begun::PollFault => {
            played.peer().facts();
            Ended::PollFault
        }
        Begun::Ready => {
            let ended = played.play(post, pilot, chance, u64::from(polls));
            played.peer().facts();
            ended
        }
    }
}

/// Plays for the peer, which has no entries, with the players of the roster, by the pilot's moves, with nonces of the generator and a
/// log of this name, and writes how the run ended. Where memory was wanting, no call was made, and nothing was written.
pub fn play_post<D: Post, P: Pilot, R: Rng, O: Sink>(
    alloc: Global,
    peer: Peer,
    roster: Roster,
    log: &[u8],
    polls: u32,
    post: &mut D,
    pilot: &mut P,
    chance: &mut R,
    out: &mut O,
) -> Status
    requires links { LinksOthers peer.me (players_of peer.game) roster }
    requires anew { peer.entries ≡ [] }
    requires first { D.history post.old ≡ [] }
    ensures { PlaysPost (record { setting = record { game = peer.game; me = peer.me; roster = roster }; log = log.now; polls = polls })
        (chooser (P.plan pilot.old) (R.stream chance.old)) (chooser (P.plan pilot.new) (R.stream chance.new))
        (D.history post.old) (D.history post.new) (O.state out.old) (O.state out.new) result }
{
    let Ok(mut played) = PostLoop::new(alloc, peer, roster) else {
        return Status::NoMemory;
    };
    let ended = play_out(&mut played, post, pilot, chance, log, polls);
    end(&played, &ended, polls, None, out)
}
