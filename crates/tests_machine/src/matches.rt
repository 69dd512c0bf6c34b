//! A match of three, one with a liar, and one that a player leaves and goes on with.

use crate::fields::{Field, clear, field_of, put_logger, put_seat};
use crate::runs::{Ran, run_words};
use std::test::Fail;
use std::{fs, thread};

/// Three players on a ground with three walls, for 6 turns.
const SESSION: &str =
    "playout 1\ngrid 12 6\nrules 1 2 0\ncharge 1 3 2\nturns 6\nplayers 3\nplayer 0 1 2\nplayer 1 10 1\nplayer 2 5 5\nwall 5 0\nwall 5 1\nwall 8 3\nend\n";

/// Player 2 is too far from the two others to meet them.
const FAR: &str =
    "playout 1\ngrid 24 6\nrules 1 2 0\ncharge 1 3 2\nturns 6\nplayers 3\nplayer 0 2 2\nplayer 1 6 3\nplayer 2 21 3\nend\n";

const STAY: &str = "6 3\n6 3\n6 3\n6 3\n6 3\n6 3\n";

/// Player 2 tells one of the others these moves.
const UP: &str = "20 3\n19 3\n19 2\n19 1\n19 1\n20 1\n";

/// And the other one these.
const DOWN: &str = "20 3\n19 3\n19 4\n19 5\n19 5\n20 5\n";

/// Two strikes hit player 1 in the fourth turn, and its own hits player 0 in the last.
const MOVES: [&str; 3] = [
    "2 2\n3 2\n4 3\n4 3 6 3\n4 2\n5 2\n",
    "9 1\n8 2\n7 3\n6 3\n6 3\n7 2 5 2\n",
    "5 4\n6 4\n7 4\n7 4 6 3\n6 4\n5 4\n",
];

/// How each of the three comes to stand.
const PLAYERS: &str =
    "player 0 turns 6 at 5 2 charge 3 next 12\nplayer 1 turns 6 at 7 2 charge 1 next 12\nplayer 2 turns 6 at 5 4 charge 3 next 12\n";

const WORLD: &[u8] =
    b"agreed 0 6\nagreed 1 6\nagreed 2 6\nworld 0 at 5 2 charge 3 given 1 taken 1\nworld 1 at 7 2 charge 1 given 1 taken 2\nworld 2 at 5 4 charge 3 given 1 taken 0\nend\n";

/// The match of three on disk.
fn three(rt: &HostRuntime, name: &str) -> Result<Field, Fail> {
    let field = field_of(rt, name, SESSION)?;
    put_seat(rt, &field, 0, 0, [(1, 1), (2, 2)], MOVES[0])?;
    put_seat(rt, &field, 1, 1, [(0, 0), (2, 2)], MOVES[1])?;
    put_seat(rt, &field, 2, 2, [(0, 0), (1, 1)], MOVES[2])?;
    Ok(field)
}

/// Runs the program of that number for a player, for at most so many polls, with a log of the name LOG or of the words `LOG OLD`.
fn peer(
    rt: &HostRuntime,
    folder: &str,
    seat: usize,
    player: usize,
    polls: u32,
    log: &str,
) -> Option<Ran> {
    let words = format!(in rt.alloc();
        "peer {folder}/session {folder}/{seat}.roster {folder}/{seat}.moves {player} {polls} {folder}/{log}"
    );
    run_words(rt, words.ok()?.as_str(), seat as u64).ok()
}

/// Audits logs of a folder.
fn audit(rt: &HostRuntime, folder: &str, logs: &[&str]) -> Result<Ran, Fail> {
    let mut words = format!(in rt.alloc(); "audit {folder}/session")?;
    for log in logs {
        words.push_str(format!(in rt.alloc(); " {folder}/{log}")?.as_str())?;
    }
    Ok(run_words(rt, words.as_str(), 0)?)
}

/// Whether the run ended well, with all turns played as they must be.
fn is_done(rt: &HostRuntime, ran: Option<&Ran>, player: usize) -> Result<bool, Fail> {
    let score = match player {
        0 => "given 1 taken 1",
        1 => "given 1 taken 2",
        _ => "given 1 taken 0",
    };
    let text = format!(in rt.alloc(); "done\n{PLAYERS}score turns 6 {score}\nend\n")?;
    Ok(match ran {
        None => false,
        Some(ran) => ran.status == 0 && ran.text.as_slice() == text.as_bytes(),
    })
}

/// The name of the log of a program, and of the log that it goes on from.
fn logs_of(seat: usize) -> (&'static str, &'static str) {
    match seat {
        0 => ("0.log", "0.old"),
        1 => ("1.log", "1.old"),
        2 => ("2.log", "2.old"),
        _ => ("3.log", "3.old"),
    }
}

/// Whether all three ended well.
fn are_done(rt: &HostRuntime, ran: &[Option<Ran>]) -> Result<bool, Fail> {
    for player in 0..3 {
        if !is_done(rt, ran.get(player).and_then(Option::as_ref), player)? {
            return Ok(false);
        }
    }
    Ok(true)
}

/// The status of a run.
fn status_of(ran: &[Option<Ran>], seat: usize) -> Option<u8> {
    match ran.get(seat) {
        Some(Some(ran)) => Some(ran.status),
        _ => None,
    }
}

#[test]
fn three_players_play_over_sockets(rt: HostRuntime) -> Result<(), Fail> {
    let field = three(&rt, "three")?;
    let folder = field.folder.as_str();
    let ran = thread::map_indices(
        &rt,
        rt.alloc(),
        3,
        &|seat| { peer(&rt, folder, seat, seat, 300, logs_of(seat).0) },
    )?;
    assert!(rt; are_done(&rt, &ran)?);
    let audit = audit(&rt, folder, &["0.log", "1.log", "2.log"])?;
    assert_eq!(rt; audit.status, 0);
    assert_eq!(rt; audit.text.as_slice(), WORLD);
    clear(&rt, &field)
}

#[test]
fn players_go_on_from_their_logs(rt: HostRuntime) -> Result<(), Fail> {
    let field = three(&rt, "resumed")?;
    let folder = field.folder.as_str();
    // player 2 isn't there, and the two others give up where they need it
    let first = thread::map_indices(
        &rt,
        rt.alloc(),
        2,
        &|seat| { peer(&rt, folder, seat, seat, 12, logs_of(seat).1) },
    )?;
    assert_eq!(rt; status_of(&first, 0), Some(7));
    assert_eq!(rt; status_of(&first, 1), Some(7));
    let ran = thread::map_indices(
        &rt,
        rt.alloc(),
        3,
        &|seat| {
            let (log, old) = logs_of(seat);
            if seat == 2 {
                return peer(&rt, folder, seat, seat, 300, log);
            }
            let words = format!(in rt.alloc(); "{log} {folder}/{old}");
            peer(&rt, folder, seat, seat, 300, words.ok()?.as_str())
        },
    )?;
    assert!(rt; are_done(&rt, &ran)?);
    let audit = audit(&rt, folder, &["0.log", "1.log", "2.log"])?;
    assert_eq!(rt; audit.text.as_slice(), WORLD);
    clear(&rt, &field)
}

/// Puts the first half of a player's log into a file of its own, as a log that still grows.
fn put_half(rt: &HostRuntime, folder: &str, player: usize) -> Result<(), Fail> {
    let path = format!(in rt.alloc(); "{folder}/{player}.log")?;
    let log = fs::read(rt, path.as_str())?;
    let half = log.as_slice().len() / 2;
    let path = format!(in rt.alloc(); "{folder}/{player}.half")?;
    fs::write(rt, path.as_str(), &log.as_slice()[..half])?;
    Ok(())
}

/// Deposits a log of that name with the logger.
fn deposit(rt: &HostRuntime, folder: &str, player: usize, log: &str) -> Option<Ran> {
    let words = format!(in rt.alloc();
        "deposit {folder}/session {folder}/{player}.deposit {player} 300 {folder}/{log}"
    );
    run_words(rt, words.ok()?.as_str(), 0).ok()
}

/// Deposits the first halves of two logs, and then the whole ones, as long as they are sent. One
/// whole log alone would end the logger, since all turns are agreed by it.
fn deposit_all(rt: &HostRuntime, folder: &str) -> Option<Ran> {
    let mut last = deposit(rt, folder, 0, "0.half")?;
    for (player, log) in [(1, "1.half"), (0, "0.log"), (1, "1.log")] {
        if last.status != 0 {
            return Some(last);
        }
        last = deposit(rt, folder, player, log)?;
    }
    Some(last)
}

/// Runs a logger as the first of two programs, and the deposits as the other.
fn watch_or_deposit(rt: &HostRuntime, folder: &str, seat: usize) -> Option<Ran> {
    if seat == 1 {
        return deposit_all(rt, folder);
    }
    let words = format!(in rt.alloc(); "watch {folder}/session {folder}/watch.roster 60");
    run_words(rt, words.ok()?.as_str(), 0).ok()
}

/// Whether the run ended with this status and wrote this.
fn wrote(ran: &[Option<Ran>], seat: usize, status: u8, text: &[u8]) -> bool {
    match ran.get(seat) {
        Some(Some(ran)) => ran.status == status && ran.text.as_slice() == text,
        _ => false,
    }
}

#[test]
fn a_liar_is_found_by_the_logs(rt: HostRuntime) -> Result<(), Fail> {
    let field = field_of(&rt, "liar", FAR)?;
    let folder = field.folder.as_str();
    // player 2 runs two programs, and has told each of the others the address of one of them
    put_seat(&rt, &field, 0, 0, [(1, 1), (2, 2)], MOVES[0])?;
    put_seat(&rt, &field, 1, 1, [(0, 0), (2, 3)], STAY)?;
    put_seat(&rt, &field, 2, 2, [(0, 0), (1, 1)], UP)?;
    put_seat(&rt, &field, 3, 2, [(0, 0), (1, 1)], DOWN)?;
    let ran = thread::map_indices(
        &rt,
        rt.alloc(),
        4,
        &|seat| {
            let polls = if seat < 2 { 300 } else { 90 };
            peer(&rt, folder, seat, seat.min(2), polls, logs_of(seat).0)
        },
    )?;
    assert_eq!(rt; status_of(&ran, 0), Some(0));
    assert_eq!(rt; status_of(&ran, 1), Some(0));
    // neither of the two logs shows anything alone
    assert_eq!(rt; audit(&rt, folder, &["0.log"])?.status, 0);
    assert_eq!(rt; audit(&rt, folder, &["1.log"])?.status, 0);
    let both = audit(&rt, folder, &["0.log", "1.log"])?;
    assert_eq!(rt; both.status, 6);
    assert!(rt; both.text.starts_with(b"finding 2 0 two-commits 0 "));
    assert!(rt;
        both.text
            .ends_with(b"\nagreed 0 6\nagreed 1 6\nagreed 2 2\nworld none\nend\n")
    );
    // a logger to which both are deposited says the same
    put_logger(&rt, &field)?;
    put_half(&rt, folder, 0)?;
    put_half(&rt, folder, 1)?;
    let watched = thread::map_indices(
        &rt,
        rt.alloc(),
        2,
        &|seat| { watch_or_deposit(&rt, folder, seat) },
    )?;
    assert!(rt; wrote(&watched, 1, 0, b"sent\n"));
    assert!(rt; wrote(&watched, 0, 6, both.text.as_slice()));
    clear(&rt, &field)
}
