//! Two peers that are embedded in one program play a match against each other, over bytes alone.
//!
//! Each side stores the entries of its log before it sends the frames that they allow, hears what
//! comes in pieces of seven bytes, and handles every answer of its peer. In mid-match one side is
//! lost and goes on from what its disk has; both greet over a new link, and the match is played to
//! its end.
#![tactic(auto)]

mod link;
mod moves;
mod seat;
mod side;

use definitions::Progress;
use grid_world::{Session, read_session};
use side::Side;
use std::alloc::Global;
use std::io;
use std::random::RandomSource;

/// Two players on a ground of 12 x 12 cells with four walls, for 20 turns.
static GROUND: &[u8] =
    b"playout 1\ngrid 12 12\nrules 1 2 1\ncharge 1 3 2\nturns 20\nplayers 2\nplayer 0 2 5\nplayer 1 9 6\nwall 5 3\nwall 6 3\nwall 5 8\nwall 6 8\nend\n";

/// The turn behind which player 0 is lost and goes on from its log.
const LOST_BEHIND: u32 = 9;

/// More rounds than a match of 20 turns takes.
const ROUNDS: u32 = 200;

/// Prints the turn that both sides have resolved by now, if it is a new one.
fn show(rt: &impl Print, left: &Side, right: &Side, shown: &mut u32) -> io::Result<()> {
    let zero = left.view(0);
    let one = left.view(1);
    let both = zero.turns.min(one.turns).min(right.view(0).turns);
    if both > *shown {
        *shown = both;
        println!(rt;
            "turn {both}: player 0 at {} {}, player 1 at {} {}",
            zero.track.at.x, zero.track.at.y, one.track.at.x, one.track.at.y
        )?;
    }
    Ok(())
}

/// Lets each side take its turn, and says whether both are done.
fn round(rt: &(impl Print + RandomSource), left: &mut Side, right: &mut Side) -> io::Result<bool> {
    let first = left.step(rt, &mut right.inbox)?;
    let second = right.step(rt, &mut left.inbox)?;
    Ok(first == Progress::Done && second == Progress::Done)
}

/// Loses a side but for its disk; then both meet over a new link.
fn lose_one(
    rt: &impl Print,
    alloc: Global,
    session: &Session,
    lost: &mut Side,
    other: &mut Side,
) -> io::Result<()> {
    lost.lose(rt, alloc, session)?;
    other.hang_up();
    lost.greet(&mut other.inbox)?;
    other.greet(&mut lost.inbox)?;
    Ok(())
}

/// Plays the match to its end.
fn play(
    rt: &(impl Print + RandomSource),
    alloc: Global,
    session: &Session,
    left: &mut Side,
    right: &mut Side,
) -> io::Result<()> {
    let mut shown = 0;
    let mut lost = false;
    for _round in 0..ROUNDS {
        let done = round(rt, left, right)?;
        show(rt, left, right, &mut shown)?;
        if done {
            return println!(rt; "done: {shown} turns");
        }
        if shown == LOST_BEHIND && !lost {
            lost = true;
            lose_one(rt, alloc, session, left, right)?;
        }
    }
    println!(rt; "no end after {ROUNDS} rounds")
}

/// Plays a match in this session.
fn play_in(rt: &(impl Print + RandomSource), alloc: Global, session: &Session) -> io::Result<()> {
    let mut left = Side::new(alloc, session, 0)?;
    let mut right = Side::new(alloc, session, 1)?;
    play(rt, alloc, session, &mut left, &mut right)
}

fn main(rt: HostRuntime) -> io::Result<()> {
    let alloc = rt.alloc();
    match read_session(alloc, GROUND) {
        Err(fault) => println!(&rt; "bad session: {fault:?}"),
        Ok(session) => play_in(&rt, alloc, &session),
    }
}
