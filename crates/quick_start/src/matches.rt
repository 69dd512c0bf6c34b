//! Whole matches, each player's program a thread.

use crate::audits::show_audit;
use crate::runs::Ran;
use crate::seats::{POLLS, log_of, play_seat, show, wait_for};
use std::thread::Threads;
use std::{io, thread};

/// The polls that the liar's programs make: what the player told itself never ends, so they
/// outlast the two honest ones.
const POLLS_OF_A_LIAR: u32 = 90;

/// The status of a player that gave up.
const GAVE_UP: u8 = 7;

/// The polls after which player 1 is out of the match: it waits for player 2 by then, who isn't
/// there yet.
const POLLS_BEFORE_THE_STOP: u32 = 30;

/// Shows what a player's program wrote, or tells its fault.
fn show_one(rt: &HostRuntime, player: usize, ran: &io::Result<Ran>) -> io::Result<()> {
    match ran {
        Ok(ran) => show(rt, player, ran),
        Err(_) => Err(io::Error::from(io::ErrorKind::Other)),
    }
}

/// Shows what the programs of these players wrote, or tells the first fault among them.
fn show_all(rt: &HostRuntime, ran: &[io::Result<Ran>], players: usize) -> io::Result<()> {
    for (player, ran) in ran.iter().take(players).enumerate() {
        show_one(rt, player, ran)?;
    }
    Ok(())
}

/// Lets a program of a match play to its end.
fn play_one(rt: &HostRuntime, seat: usize) -> io::Result<Ran> {
    let log = log_of(rt, seat)?;
    play_seat(rt, seat, seat, POLLS, log.as_str())
}

/// Plays a match of three to its end, and audits its logs.
pub(crate) fn play(rt: &HostRuntime, threads: &(impl Threads + Sync)) -> io::Result<u8> {
    let ran = thread::map_indices(threads, rt.alloc(), 3, &|seat| play_one(rt, seat))?;
    show_all(rt, ran.as_slice(), 3)?;
    show_audit(rt, "0.log 1.log 2.log")?;
    Ok(0)
}

/// Lets a program of the match with a liar play: of four, the last two are player 2's.
fn play_one_of_four(rt: &HostRuntime, seat: usize) -> io::Result<Ran> {
    let log = log_of(rt, seat)?;
    if seat < 2 {
        play_seat(rt, seat, seat, POLLS, log.as_str())
    } else {
        play_seat(rt, seat, 2, POLLS_OF_A_LIAR, log.as_str())
    }
}

/// Plays a match in which player 2 runs two programs, has told each of the others the address of
/// one of them, and plays another match with each. Then audits the logs of the two others.
pub(crate) fn play_liar(rt: &HostRuntime, threads: &(impl Threads + Sync)) -> io::Result<u8> {
    let ran = thread::map_indices(threads, rt.alloc(), 4, &|seat| play_one_of_four(rt, seat))?;
    show_all(rt, ran.as_slice(), 2)?;
    show_audit(rt, "0.log 1.log")?;
    Ok(0)
}

/// Lets player 1 play until it gives up, while player 2 isn't there yet, and then go on from its
/// log.
fn play_twice(rt: &HostRuntime) -> io::Result<Ran> {
    let first = play_seat(rt, 1, 1, POLLS_BEFORE_THE_STOP, "1.log")?;
    if first.status != GAVE_UP {
        return Err(io::Error::from(io::ErrorKind::Other));
    }
    let bytes = std::fs::metadata(rt, "1.log")?.len();
    println!(rt; "player 1 gave up, and its log has {bytes} bytes")?;
    play_seat(rt, 1, 1, POLLS, "new.log 1.log")
}

/// Lets a program of the match that player 1 leaves play: the last one begins when player 1 is
/// back.
fn play_one_of_three(rt: &HostRuntime, seat: usize) -> io::Result<Ran> {
    match seat {
        0 => play_seat(rt, 0, 0, POLLS, "0.log"),
        1 => play_twice(rt),
        _ => {
            wait_for(rt, "new.log")?;
            play_seat(rt, 2, 2, POLLS, "2.log")
        }
    }
}

/// Plays a match that player 1 leaves in its middle, and to which it comes back by its log. Then
/// audits the logs.
pub(crate) fn play_killed(rt: &HostRuntime, threads: &(impl Threads + Sync)) -> io::Result<u8> {
    let ran = thread::map_indices(threads, rt.alloc(), 3, &|seat| play_one_of_three(rt, seat))?;
    show_all(rt, ran.as_slice(), 3)?;
    show_audit(rt, "0.log new.log 2.log")?;
    Ok(0)
}
