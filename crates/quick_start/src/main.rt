//! The program `quick_start`: what `./audit` and `./match` run where nothing is proved and built
//! yet, and `./play` but for a player alone, which is `quick_drive`'s, so that a first look takes
//! about a minute.
//!
//! It takes the words of the program `lethwyrn` and does the same by them; but it reads them
//! without clap, which takes longer to compile than half of all else. And it does as one program
//! what else takes several, each of which would be compiled anew: `match`, `liar` and
//! `killed` play a whole match over the sockets of this machine, each player's program a thread,
//! by the files `session`, `0.roster`,
//! `0.moves` and so on of the folder that it runs in, where it leaves the logs; and `settle
//! SESSION LOG..` audits logs, and judges each exhibit that is printed. Nothing is promised of it
//! beyond what `peer_runs` promises of each of its runs.
#![tactic(auto)]

mod audits;
mod matches;
mod runs;
mod seats;

use runs::run_over;
use station::{StdSink, StdSource, words_of};
use std::io;
use std::process::ExitCode;
use std::thread::Threads;

/// The status where the machine refuses the program its words, random bytes, memory, a thread or a
/// file.
const REFUSED: u8 = 15;

/// What the words ask for.
enum Task<'a> {
    Match,
    Liar,
    Killed,
    /// The file of the session, and the files of the logs.
    Settle(&'a [u8], &'a [Vec<u8>]),
    /// What the program `lethwyrn` does by these words.
    Run,
}

/// What one word asks for.
fn match_of<'a>(name: &[u8]) -> Task<'a> {
    match name {
        b"match" => Task::Match,
        b"liar" => Task::Liar,
        b"killed" => Task::Killed,
        _ => Task::Run,
    }
}

/// What the words ask for.
fn task_of(words: &[Vec<u8>]) -> Task<'_> {
    match words {
        [name] => match_of(name.as_slice()),
        [name, session, logs @ ..] => match name.as_slice() {
            b"settle" => Task::Settle(session.as_slice(), logs),
            _ => Task::Run,
        },
        _ => Task::Run,
    }
}

/// Does what the words ask for, as the program `lethwyrn` does.
fn obey(rt: &HostRuntime, words: &[Vec<u8>]) -> io::Result<u8> {
    let mut input = StdSource::new(rt.reader());
    let mut out = StdSink::new(io::writer(rt));
    run_over(rt, words, &mut input, &mut out)
}

/// Plays the match of that name, or settles one by its logs, or else does as the program
/// `lethwyrn`.
fn start(rt: &HostRuntime, threads: &(impl Threads + Sync)) -> io::Result<u8> {
    let words = words_of(rt)?;
    match task_of(words.as_slice()) {
        Task::Match => matches::play(rt, threads),
        Task::Liar => matches::play_liar(rt, threads),
        Task::Killed => matches::play_killed(rt, threads),
        Task::Settle(session, logs) => audits::settle(rt, session, logs),
        Task::Run => obey(rt, words.as_slice()),
    }
}

fn main(rt: HostRuntime) -> ExitCode {
    match start(&rt, &rt) {
        Ok(status) => ExitCode::from(status),
        Err(_) => ExitCode::from(REFUSED),
    }
}
