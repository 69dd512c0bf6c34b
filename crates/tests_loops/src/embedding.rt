//! A match of two loops over stations that an engine brings itself.

ghost use Rattle.std.specs.Prelude.{◌≡◌, None};
ghost use Rattle.ready_loop.specs.Settling.{IsReady};
ghost use Rattle.std.proofs.Props.{props};
ghost use Rattle.match_sides.specs.Props.{EachIs-prop, DiffersBy-prop};

use crate::engines::{Engine, Link};
use crate::nets::grounds::FAR;
use crate::nets::setups::{STAY_0, STAY_9};
use definitions::PlayerId;
use grid_world::Session;
use match_sides::audits::is_clean;
use match_sides::rounds::{begin, loop_of, play_round};
use match_sides::texts::{roster_of, script_of, session_of};
use peer_core::Peer;
use pilots::{Pilot, generator_of};
use rand_pcg::Pcg32;
use ready_loop::{Ended, Loop};
use std::alloc::Global;
use std::test::Fail;

/// A player of an engine: its loop over the engine's station.
#[derive(Drop)]
struct Seated {
    it: Loop,
    engine: Engine,
    chance: Pcg32,
    ended: Option<Ended>,
    ghost ready: { ended ≡ None → IsReady engine.notes it } by { Prim.hlevel (props, EachIs-prop, DiffersBy-prop) },
}

impl Seated {
    fn new(alloc: Global, session: &Session, me: PlayerId) -> Result<Seated, Fail> {
        if me >= session.players() {
            return Err("no player".into());
        }
        let roster = roster_of(alloc, me, session.players())?;
        let peer = Peer::new(alloc, session, me)?;
        let mut it = loop_of(alloc, peer, &roster)?;
        let mut engine = Engine::new(alloc);
        let ended = begin(&mut it, &mut engine);
        let chance = generator_of(u64::from(me));
        Ok(Seated {
            it,
            engine,
            chance,
            ended,
        })
    }

    fn round<P: Pilot>(&mut self, pilot: &mut P) {
        match self.ended {
            Some(_) => {}
            None => {
                self.ended = play_round(&mut self.it, &mut self.engine, pilot, &mut self.chance);
            }
        }
    }

    /// The bytes that go out now.
    fn take_sent(&mut self, alloc: Global) -> Vec<u8> {
        std::mem::replace(&mut self.engine.sent, Vec::new(alloc))
    }

    /// Bytes came.
    fn hear(&mut self, bytes: &[u8]) -> Result<(), Fail> {
        self.engine.came.extend_from_slice(bytes)?;
        Ok(())
    }
}

/// What goes out of one engine comes to the other.
fn carry(alloc: Global, from: &mut Seated, to: &mut Seated) -> Result<(), Fail> {
    let sent = from.take_sent(alloc);
    to.hear(&sent)
}

/// Plays the match to its end.
fn play(alloc: Global, session: &Session, zero: &mut Seated, one: &mut Seated) -> Result<(), Fail> {
    let mut left = script_of(alloc, STAY_0, session)?;
    let mut right = script_of(alloc, STAY_9, session)?;
    for _ in 0..100 {
        if zero.ended.is_some() && one.ended.is_some() {
            break;
        }
        zero.round(&mut left);
        one.round(&mut right);
        carry(alloc, zero, one)?;
        carry(alloc, one, zero)?;
    }
    Ok(())
}

/// Whether the player has all that the other one made, and a log of all.
fn is_whole(seated: &Seated, other: PlayerId) -> bool {
    let engine = &seated.engine;
    seated.ended == Some(Ended::Done)
        && seated.it.given(other) == 16
        // a greeting, and eight turns of 40 and 45 bytes, all of which were read
        && seated.it.spent(other).read == 736
        && engine.came.len() == 736
        && engine.read == 736
        // an owner, and of each turn a choice of 76 bytes, two own frames of 75 and 80 and two of
        // the other of 76 and 81
        && engine.log.len() == 3105
        && engine.synced == 3105
        && engine.link == Link::Open
}

/// Whether the match of these players ends with all that it is to have.
fn end_well(
    alloc: Global,
    session: &Session,
    zero: &mut Seated,
    one: &mut Seated,
) -> Result<bool, Fail> {
    play(alloc, session, zero, one)?;
    let logs = [zero.engine.log.as_slice(), one.engine.log.as_slice()];
    let is_clean = is_clean(alloc, session, &logs)?;
    Ok(is_clean && is_whole(zero, 1) && is_whole(one, 0))
}

/// The players of a match of two.
fn seat(alloc: Global, session: &Session) -> Result<Vec<Seated>, Fail> {
    let mut seated = Vec::new(alloc);
    for me in 0..2 {
        let player = Seated::new(alloc, session, me)?;
        seated.push(player)?;
    }
    Ok(seated)
}

fn carries_a_match(alloc: Global, session: &Session) -> Result<bool, Fail> {
    let mut seated = seat(alloc, session)?;
    match seated.as_mut_slice() {
        [zero, one] => end_well(alloc, session, zero, one),
        _ => Err("no match of two".into()),
    }
}

#[test]
fn an_engines_own_station_carries_a_match(rt: HostRuntime) -> Result<(), Fail> {
    let alloc = rt.alloc();
    let session = session_of(alloc, FAR)?;
    let carries_a_match = carries_a_match(alloc, &session)?;
    assert!(rt; carries_a_match);
    Ok(())
}
