//! The programs of a match, by their numbers: each plays for a player by its own roster and moves,
//! and leaves its own log.

use crate::runs::{Ran, run_line};
use std::io;
use std::thread::sleep;
use std::time::Duration;

/// More polls than a match takes, of a tenth of a second at most: whoever waits for a player that
/// isn't there gives up after a minute.
pub(crate) const POLLS: u32 = 600;

/// The name of a program's log.
pub(crate) fn log_of(rt: &HostRuntime, seat: usize) -> io::Result<String> {
    Ok(format!(in rt.alloc(); "{seat}.log")?)
}

/// Lets a program play for a player, for at most so many polls, with a log of the name LOG or of
/// the words `LOG OLD`.
pub(crate) fn play_seat(
    rt: &HostRuntime,
    seat: usize,
    player: usize,
    polls: u32,
    log: &str,
) -> io::Result<Ran> {
    let line = format!(in rt.alloc();
        "peer session {seat}.roster {seat}.moves {player} {polls} {log}"
    )?;
    run_line(rt, line.as_str())
}

/// Waits until there is a file of that name, ten seconds at most.
pub(crate) fn wait_for(rt: &HostRuntime, name: &str) -> io::Result<()> {
    for _look in 0..1000 {
        if std::fs::exists(rt, name)? {
            return Ok(());
        }
        sleep(rt, Duration::from_millis(10));
    }
    Ok(())
}

/// Shows what a player's program wrote, a line each.
pub(crate) fn show(rt: &HostRuntime, player: usize, ran: &Ran) -> io::Result<()> {
    println!(rt; "player {player} says:")?;
    for line in ran.text.lines() {
        println!(rt; "    {line}")?;
    }
    Ok(())
}
