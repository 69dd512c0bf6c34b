//! A run, from the first call of its loop to the last line.

ghost use Rattle.std.specs.Prelude.{◌≡◌, []};
ghost use Rattle.definitions.specs.World.{players_of};
ghost use Rattle.rosters.specs.Rosters.{LinksOthers};
ghost use Rattle.ready_loop.specs.Beginning.{IsNew};
ghost use Rattle.own_moves.specs.Choices.{chooser};
ghost use Rattle.peer_command.specs.Plays.{PlaysOut, PlaysPeer};

use loop_rules::laws::{
    faults_are_last, given_is_due, histories_grow_by_items, kept_logs_are_honest, logs_are_runs,
    polls_are_licensed, reveals_given_are_fair,
};
use match_ends::end;
use peer_core::Peer;
use pilots::Pilot;
use rand_core::Rng;
use ready_loop::laws::{beginnings_are_histories, runs_are_whole};
use ready_loop::{Begun, Ended, Loop};
use rosters::Roster;
use run_frame::Status;
use socket_station::Station;
use station::Sink;
use std::alloc::Global;

/// Begins the loop and plays it to its end.
fn play_out<S: Station, P: Pilot, R: Rng>(
    played: &mut Loop,
    station: &mut S,
    pilot: &mut P,
    chance: &mut R,
    log: &[u8],
    polls: u32,
) -> Ended
    requires new { IsNew played.old }
    requires first { S.history station.old ≡ [] }
    ensures { PlaysOut log.now (chooser (P.plan pilot.old) (R.stream chance.old)) (chooser (P.plan pilot.new) (R.stream chance.new))
        polls result played.old played.new (S.history station.new) }
{
    beginnings_are_histories();
    faults_are_last();
    runs_are_whole();
    match played.begin(station, log) {
        Begun::KeepFault => {
            played.facts();
            Ended::KeepFault
        }
        Begun::PollFault => {
            played.facts();
            Ended::PollFault
        }
        Begun::Ready => {
            let ended = played.play(station, pilot, chance, u64::from(polls));
            played.facts();
            ended
        }
    }
}

/// Plays for the peer with the players of the roster, by the pilot's moves, with nonces of the generator and a log of this name, and writes how the
/// run ended. Behind want of memory no call was made, and nothing was written.
pub fn play_peer<S: Station, P: Pilot, R: Rng, O: Sink>(
    alloc: Global,
    peer: Peer,
    roster: Roster,
    dropped: Option<u32>,
    log: &[u8],
    polls: u32,
    station: &mut S,
    pilot: &mut P,
    chance: &mut R,
    out: &mut O,
) -> Status
    requires links { LinksOthers peer.me (players_of peer.game) roster }
    requires first { S.history station.old ≡ [] }
    ensures { PlaysPeer (record { peer = peer; roster = roster; dropped = dropped; log = log.now; polls = polls })
        (chooser (P.plan pilot.old) (R.stream chance.old)) (chooser (P.plan pilot.new) (R.stream chance.new))
        (S.history station.old) (S.history station.new) (O.state out.old) (O.state out.new) result }
{
    peer.facts();
    histories_grow_by_items();
    given_is_due();
    reveals_given_are_fair();
    kept_logs_are_honest();
    logs_are_runs();
    polls_are_licensed();
    let Ok(mut played) = Loop::new(alloc, peer, roster) else {
        return Status::NoMemory;
    };
    let ended = play_out(&mut played, station, pilot, chance, log, polls);
    end(&played, &ended, polls, dropped, out)
}
